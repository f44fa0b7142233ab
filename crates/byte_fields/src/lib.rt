// Numbers as bytes, and bytes put into a buffer.
#![tactic(auto)]

ghost use Rattle.std.specs.Prelude.{◌≡◌, ◌+◌, ◌<◌, ◌≤◌, length, MatchOption};
ghost use Rattle.byte_fields.specs.Little.{field};
ghost use Rattle.byte_fields.specs.Wrote.{Wrote};

mod numbers;

pub use numbers::Number;

// The number that stands at the place `at`, if its bytes are there.
pub fn read<N: Number>(bytes: &[u8], at: usize) -> Option<N>
    ensures { MatchOption result (length bytes.now < at + N.width) (λ x. (at + N.width ≤ length bytes.now) × (N.value x ≡ field bytes.now at N.width)) }
{
    N::from_front(bytes.get(at..)?)
}

// Writes `bytes` at the place `at` and says which place comes after them, or leaves `buffer` as it is where there is no room.
pub fn put(buffer: &mut [u8], at: usize, bytes: &[u8]) -> Option<usize>
    ensures { MatchOption result ((length buffer.old < at + length bytes.now) × (buffer.new ≡ buffer.old)) (λ end. Wrote buffer.old at end bytes.now buffer.new) }
{
    let end = at.checked_add(bytes.len())?;
    // not by `get_mut` and `?`: where that gives nothing, a proof does not know that the buffer is as it was
    if buffer.len() < end {
        return None;
    }
    buffer[at..end].copy_from_slice(bytes);
    Some(end)
}
