ghost use Rattle.std.specs.Prelude.{◌≤◌};
ghost use Rattle.sheet.specs.Rules.{most_devices};

// How many devices there are of each kind.
#[repr(C)]
#[derive(Clone, Copy, PartialEq, Eq, Debug)]
pub struct Counts {
    pub k: u8,
    pub l: u8,
    ghost few: { (k ≤ most_devices) × (l ≤ most_devices) },
}
