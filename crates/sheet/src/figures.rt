ghost use Rattle.std.specs.Prelude.{◌≤◌};
ghost use Rattle.sheet.specs.Rules.{most_sum};

// The figures of a stage: its set of operators, what they sum up to, and the ticks to move what enters and what leaves it.
#[derive(Clone, Copy, PartialEq, Eq, Debug)]
pub struct StageFigures {
    pub mask: u64,
    pub acc: u32,
    pub cpu: u32,
    pub size: u32,
    pub incoming: u32,
    pub outgoing: u32,
    ghost small: { (acc ≤ most_sum) × (cpu ≤ most_sum) × (size ≤ most_sum) × (incoming ≤ most_sum) × (outgoing ≤ most_sum) },
}
