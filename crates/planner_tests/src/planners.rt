// Planners that several tests are about. Each crate of tests makes its sheets itself: a crate for a few lines would need contracts and edits of its own, and be longer than they are.
use cells::Choice;
use device::{Accelerator, Processor};
use planner::{Plan, Planner};
use refusals::Refusal;
use scale::Peak;
use sheet::Operator;

// A planner for an accelerator and a processor, on peaks.
pub(crate) type OnPeak = Planner<Accelerator, Processor, Peak>;

pub(crate) fn operator(acc: u32, cpu: u32, size: u32, link: u32) -> Operator {
    Operator {
        acc,
        cpu,
        size,
        link,
    }
}

// No operator, for an accelerator with limit 4.
pub(crate) fn empty() -> Result<OnPeak, Refusal> {
    Ok(Planner::new(Accelerator::new(4)?, Processor, Peak))
}

// The diamond: edges 0 to 1, 0 to 2, 1 to 3 and 2 to 3. It has 6 ideals, and on two devices of the first kind 18 cells.
pub(crate) fn diamond(k: u8, l: u8) -> Result<OnPeak, Refusal> {
    let mut planner = empty()?;
    for (acc, cpu, size) in [(2, 6, 1), (4, 8, 2), (3, 9, 2), (2, 5, 1)] {
        planner.add(operator(acc, cpu, size, 1))?;
    }
    for (from, to) in [(0, 1), (0, 2), (1, 3), (2, 3)] {
        planner.join(from, to)?;
    }
    planner.count(k, l)?;
    Ok(planner)
}

// Plans in tables for the diamond on two devices of each kind.
pub(crate) fn plan(planner: &mut OnPeak) -> Result<Plan<u32>, Refusal> {
    planner.plan(&mut [0; 6], &mut [0; 54], &mut [Choice::NONE; 54])
}

// The diamond on two accelerators, with its least split: {0, 1}, then {2, 3}.
pub(crate) fn planned() -> Result<OnPeak, Refusal> {
    let mut planner = diamond(2, 0)?;
    plan(&mut planner)?;
    Ok(planner)
}
