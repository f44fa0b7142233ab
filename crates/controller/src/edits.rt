// The calls that change the sheet, on each scale alike: the planner is taken out of its memory, called, and put back.
ghost use Rattle.planner.specs.Kept.{kept};
ghost use Rattle.controller.specs.Calls.{Adds, Joins, Retimes, Counts, Loads, Clears};

use super::{NumberRecord, RefusalRecord};
use planner::Kept;
use scale::Scale;
use sheet::Operator;

pub(crate) fn add<S: Scale + Drop>(
    memory: &mut Kept,
    scale: S,
    rating: &mut S::Rating,
    operator: Operator,
) -> NumberRecord
    ensures { Adds (S.rules scale) (kept scale rating.old memory.old) (kept scale rating.new memory.new) operator result }
{
    let mut planner = memory.take(scale, *rating);
    let answer = planner.add(operator);
    memory.put(planner, rating);
    NumberRecord::of(answer)
}

pub(crate) fn join<S: Scale + Drop>(
    memory: &mut Kept,
    scale: S,
    rating: &mut S::Rating,
    from: usize,
    to: usize,
) -> RefusalRecord
    ensures { Joins (S.rules scale) (kept scale rating.old memory.old) (kept scale rating.new memory.new) from to result }
{
    let mut planner = memory.take(scale, *rating);
    let answer = planner.join(from, to);
    memory.put(planner, rating);
    RefusalRecord::of_change(answer)
}

pub(crate) fn retime<S: Scale + Drop>(
    memory: &mut Kept,
    scale: S,
    rating: &mut S::Rating,
    v: usize,
    figures: &Operator,
) -> RefusalRecord
    ensures { Retimes (S.rules scale) (kept scale rating.old memory.old) (kept scale rating.new memory.new) v figures.now result }
{
    let mut planner = memory.take(scale, *rating);
    let answer = planner.retime(v, figures);
    memory.put(planner, rating);
    RefusalRecord::of_change(answer)
}

pub(crate) fn count<S: Scale + Drop>(
    memory: &mut Kept,
    scale: S,
    rating: &mut S::Rating,
    k: u8,
    l: u8,
) -> RefusalRecord
    ensures { Counts (S.rules scale) (kept scale rating.old memory.old) (kept scale rating.new memory.new) k l result }
{
    let mut planner = memory.take(scale, *rating);
    let answer = planner.count(k, l);
    memory.put(planner, rating);
    RefusalRecord::of_change(answer)
}

pub(crate) fn load<S: Scale + Drop>(
    memory: &mut Kept,
    scale: S,
    rating: &mut S::Rating,
    file: &[u8],
) -> RefusalRecord
    ensures { Loads (S.rules scale) (kept scale rating.old memory.old) (kept scale rating.new memory.new) file.entry result }
{
    let mut planner = memory.take(scale, *rating);
    let answer = planner.load(file);
    memory.put(planner, rating);
    RefusalRecord::of_change(answer)
}

pub(crate) fn clear<S: Scale + Drop>(memory: &mut Kept, scale: S, rating: &mut S::Rating)
    ensures { Clears (S.rules scale) (kept scale rating.old memory.old) (kept scale rating.new memory.new) }
{
    let mut planner = memory.take(scale, *rating);
    planner.clear();
    memory.put(planner, rating);
}
