// Making a planner, and the calls whose answer has a rating in it, on each scale alike. What they answer is told in the file of the scale.
ghost use Rattle.std.specs.Prelude.{length};
ghost use Rattle.planner.specs.Kept.{kept};
ghost use Rattle.planner.specs.Plans.{Plans};
ghost use Rattle.controller.specs.Calls.{kinds_at, Makes, PlanAdds, Rates};

use super::RefusalRecord;
use cells::Choice;
use device::{Accelerator, Processor};
use planner::{Kept, Plan, Planner};
use refusals::Refusal;
use scale::Scale;

pub(crate) fn new<S: Scale + Drop>(
    memory: &mut Kept,
    scale: S,
    rating: &mut S::Rating,
    limit: u32,
) -> RefusalRecord
    ensures { Makes (S.rules scale) (kept scale rating.old memory.old) (kept scale rating.new memory.new) scale limit result }
{
    match Accelerator::new(limit) {
        Ok(accelerator) => {
            memory.put(Planner::new(accelerator, Processor, scale), rating);
            RefusalRecord::GRANTED
        }
        Err(refusal) => RefusalRecord::of(refusal),
    }
}

pub(crate) fn plan<S: Scale + Drop>(
    memory: &mut Kept,
    scale: S,
    rating: &mut S::Rating,
    ideals: &mut [u64],
    ratings: &mut [S::Rating],
    choices: &mut [Choice],
) -> Result<Plan<S::Rating>, Refusal>
    ensures plans { Plans (kinds_at (kept scale rating.old memory.old)) (S.rules scale) ideals.old ideals.new ratings.old choices.old ratings.new choices.new (kept scale rating.old memory.old) (kept scale rating.new memory.new) result }
    ensures law { PlanAdds (S.rules scale) (kept scale rating.old memory.old) (kept scale rating.new memory.new) (length ideals.old) (length ratings.old) (length choices.old) result }
{
    let mut planner = memory.take(scale, *rating);
    let answer = planner.plan(ideals, ratings, choices);
    memory.put(planner, rating);
    answer
}

pub(crate) fn rating<S: Scale + Drop>(
    memory: &mut Kept,
    scale: S,
    rating: &mut S::Rating,
) -> Result<S::Rating, Refusal>
    ensures { Rates (kept scale rating.old memory.old) (kept scale rating.new memory.new) result }
{
    let planner = memory.take(scale, *rating);
    let answer = planner.rating();
    memory.put(planner, rating);
    answer
}
