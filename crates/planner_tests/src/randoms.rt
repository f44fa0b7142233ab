// Numbers that look random and are the same in each run.
ghost use Rattle.std.specs.Prelude.{◌<◌};

#[derive(Clone, Copy)]
pub(crate) struct Random {
    state: u64,
}

impl Random {
    // A seed other than 0.
    pub(crate) fn new(seed: u64) -> Random {
        Random { state: seed }
    }

    // The next number, by three shifts.
    pub(crate) fn bits(&mut self) -> u64 {
        self.state ^= self.state << 13;
        self.state ^= self.state >> 7;
        self.state ^= self.state << 17;
        self.state
    }

    // A number below `bound`.
    pub(crate) fn below(&mut self, bound: u8) -> u8
        requires { 0 < bound }
        ensures { result < bound }
    {
        (self.bits() >> 32).rem_euclid(u64::from(bound)) as u8
    }
}
