ghost use Rattle.std.specs.Prelude.{◌≡◌, ℕ, ◌<◌, ◌≤◌, length, MatchOption};
ghost use Rattle.byte_fields.specs.Little.{field};

// A number that stands in a fixed count of bytes, the low byte first.
pub trait Number: Copy {
    // how many bytes it has
    ghost width: { ℕ };

    // the number itself
    ghost value: { Self → ℕ };

    // The number of the first bytes, if they are there.
    fn from_front(bytes: &[u8]) -> Option<Self>
        ensures { MatchOption result (length bytes.now < width) (λ x. (width ≤ length bytes.now) × (value x ≡ field bytes.now 0 width)) };
}

impl Number for u16 {
    ghost width = { 2 };

    ghost value = { λ x. x };

    fn from_front(bytes: &[u8]) -> Option<u16> {
        bytes.first_chunk().map(|front| u16::from_le_bytes(*front))
    }
}

impl Number for u32 {
    ghost width = { 4 };

    ghost value = { λ x. x };

    fn from_front(bytes: &[u8]) -> Option<u32> {
        bytes.first_chunk().map(|front| u32::from_le_bytes(*front))
    }
}
