// Bytes that are made one after another.
ghost use Rattle.std.specs.Prelude.{◌≡◌, ◌≤◌, length};

// As long as the longest sheet file.
pub(crate) const ROOM: usize = 5078;

#[derive(Clone, Copy)]
pub(crate) struct Buffer {
    bytes: [u8; 5078],
    end: usize,
    ghost all: { length bytes ≡ 5078 },
    ghost few: { end ≤ 5078 },
}

impl Buffer {
    pub(crate) fn new() -> Buffer {
        Buffer {
            bytes: [0; 5078],
            end: 0,
        }
    }

    pub(crate) fn as_slice(&self) -> &[u8]
        ensures { length result.now ≤ 5078 }
    {
        &self.bytes[..self.end]
    }

    // What is beyond the end is left out.
    pub(crate) fn push(&mut self, byte: u8) {
        if self.end < ROOM {
            self.bytes[self.end] = byte;
            self.end += 1;
        }
    }

    pub(crate) fn push_all(&mut self, bytes: &[u8]) {
        for byte in bytes {
            self.push(*byte);
        }
    }

    // The low bytes of a number, the lowest first.
    pub(crate) fn push_number(&mut self, number: u32, size: usize) {
        for byte in number.to_le_bytes().iter().take(size) {
            self.push(*byte);
        }
    }

    // A number with its decimal digits.
    pub(crate) fn push_decimal(&mut self, number: u32) {
        let mut unit = 1_000_000_000;
        for _ in 0..10 {
            let digit = number.checked_div(unit).unwrap_or(0) % 10;
            if number >= unit || unit == 1 {
                self.push(b'0' + digit as u8);
            }
            unit = (unit / 10).max(1);
        }
    }

    // Changes a byte, where there is one.
    pub(crate) fn set(&mut self, at: usize, byte: u8) {
        if at < self.end {
            self.bytes[at] = byte;
        }
    }

    // Cuts the last byte off.
    pub(crate) fn pop(&mut self) {
        self.end = self.end.saturating_sub(1);
    }
}
