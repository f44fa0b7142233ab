ghost use Rattle.std.specs.Prelude.{◌≡◌, ◌==◌};
ghost use Rattle.device.specs.WhichKinds.{kind_of};
ghost use Rattle.cells.specs.Cells.{choice_of};

use device::WhichKind;

// Where a cell's rating comes from: the index of the ideal before the last stage, and that stage's kind.
// The kind is a number, 0 where there is none, since this is the record of a table that a controller lends.
#[repr(C)]
#[derive(Clone, Copy, PartialEq, Eq, Debug)]
pub struct Choice {
    pub ideal: u32,
    pub kind: u8,
}

impl Choice {
    // Where there is no last stage.
    pub const NONE: Choice = Choice { ideal: 0, kind: 0 };

    // The choice of a last stage on `kind`, after the ideal of index `ideal`.
    pub fn of(ideal: u32, kind: WhichKind) -> Choice
        ensures { result ≡ choice_of ideal kind }
    {
        Choice {
            ideal,
            kind: u8::from(kind),
        }
    }

    // Whether there is no last stage.
    pub fn is_none(self) -> bool
        ensures { result ≡ (self.kind == 0) }
    {
        self.kind == 0
    }

    // The kind of the last stage, where the number names one.
    pub fn which(self) -> Option<WhichKind>
        ensures { result ≡ kind_of self.kind }
    {
        WhichKind::try_from(self.kind).ok()
    }
}
