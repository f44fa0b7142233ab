// The calls that only read, on each scale alike.
ghost use Rattle.planner.specs.Kept.{kept};
ghost use Rattle.controller.specs.Calls.{Stages, Places, Margins, Pages, Writes};

use super::{MarginRecord, NumberRecord, StageRecord};
use planner::Kept;
use scale::Scale;

pub(crate) fn stage<S: Scale + Drop>(
    memory: &mut Kept,
    scale: S,
    rating: &mut S::Rating,
    i: usize,
) -> StageRecord
    ensures { Stages (kept scale rating.old memory.old) (kept scale rating.new memory.new) i result }
{
    let planner = memory.take(scale, *rating);
    let answer = planner.stage(i);
    memory.put(planner, rating);
    StageRecord::of(answer)
}

pub(crate) fn place<S: Scale + Drop>(
    memory: &mut Kept,
    scale: S,
    rating: &mut S::Rating,
    v: usize,
) -> NumberRecord
    ensures { Places (kept scale rating.old memory.old) (kept scale rating.new memory.new) v result }
{
    let planner = memory.take(scale, *rating);
    let answer = planner.place(v);
    memory.put(planner, rating);
    NumberRecord::of(answer)
}

pub(crate) fn margin<S: Scale + Drop>(
    memory: &mut Kept,
    scale: S,
    rating: &mut S::Rating,
    pick: u32,
) -> MarginRecord
    ensures { Margins (kept scale rating.old memory.old) (kept scale rating.new memory.new) pick result }
{
    let planner = memory.take(scale, *rating);
    let answer = planner.margin(pick);
    memory.put(planner, rating);
    MarginRecord::of(answer)
}

pub(crate) fn page<S: Scale + Drop>(
    memory: &mut Kept,
    scale: S,
    rating: &mut S::Rating,
    buffer: &mut [u8],
) -> NumberRecord
    ensures { Pages (kept scale rating.old memory.old) (kept scale rating.new memory.new) buffer.old buffer.new result }
{
    let planner = memory.take(scale, *rating);
    let answer = planner.page(buffer);
    memory.put(planner, rating);
    NumberRecord::of(answer)
}

pub(crate) fn write<S: Scale + Drop>(
    memory: &mut Kept,
    scale: S,
    rating: &mut S::Rating,
    buffer: &mut [u8],
) -> NumberRecord
    ensures { Writes (kept scale rating.old memory.old) (kept scale rating.new memory.new) buffer.old buffer.new result }
{
    let planner = memory.take(scale, *rating);
    let answer = planner.write(buffer);
    memory.put(planner, rating);
    NumberRecord::of(answer)
}
