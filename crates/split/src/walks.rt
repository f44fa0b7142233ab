ghost use Rattle.std.specs.Prelude.{◌≡◌, ◌-◌, ◌^◌, ◌<◌};
ghost use Rattle.device.specs.WhichKinds.{kind_number};
ghost use Rattle.split.specs.Breaches.{walked};

use device::WhichKind;

// What the stages so far come to: their operators, and how many of them are of each kind.
#[derive(Clone, Copy, Default)]
pub(crate) struct Walk {
    pub(crate) placed: u64,
    pub(crate) first: usize,
    pub(crate) second: usize,
}

impl Walk {
    // The same with one stage more.
    pub(crate) fn with(&self, kind: WhichKind, mask: u64) -> Walk
        requires { (self.now.first < 2 ^ 64 - 1) × (self.now.second < 2 ^ 64 - 1) }
        ensures { result ≡ walked self.now (record { mask = mask; kind = kind_number kind }) }
    {
        let placed = sets::union(self.placed, mask);
        match kind {
            WhichKind::First => Walk {
                placed,
                first: self.first + 1,
                ..*self
            },
            WhichKind::Second => Walk {
                placed,
                second: self.second + 1,
                ..*self
            },
        }
    }
}
