// A planner on the scale pair, as a caller in C keeps it, and its answers with a rating in them.
ghost use Rattle.std.specs.Prelude.{◌≡◌};
ghost use Rattle.controller.specs.Pairs.{plan_of, rating_of};

use super::RefusalRecord;
use planner::{Kept, Plan};
use refusals::Refusal;
use scale::PairRating;

// Beside a refusal.
const NO_RATING: PairRating = PairRating { ticks: 0, link: 0 };

// Memory that keeps a planner.
#[repr(C)]
#[derive(Drop)]
pub struct PairPlanner {
    pub(crate) kept: Kept,
    pub(crate) rating: PairRating,
}

// so large as the header has it
const _: () = prove!(std::mem::size_of::<PairPlanner>() == 1_840);

#[repr(C)]
#[derive(Clone, Copy)]
pub struct PairPlanRecord {
    pub refusal: RefusalRecord,
    pub stages: usize,
    pub ideals: usize,
    pub rating: PairRating,
}

#[repr(C)]
#[derive(Clone, Copy)]
pub struct PairRatingRecord {
    pub refusal: RefusalRecord,
    pub rating: PairRating,
}

impl PairPlanRecord {
    pub(crate) fn of(answer: Result<Plan<PairRating>, Refusal>) -> PairPlanRecord
        ensures { result ≡ plan_of answer }
    {
        match answer {
            Ok(plan) => PairPlanRecord {
                refusal: RefusalRecord::GRANTED,
                stages: plan.stages,
                ideals: plan.ideals,
                rating: plan.rating,
            },
            Err(refusal) => PairPlanRecord {
                refusal: RefusalRecord::of(refusal),
                stages: 0,
                ideals: 0,
                rating: NO_RATING,
            },
        }
    }
}

impl PairRatingRecord {
    pub(crate) fn of(answer: Result<PairRating, Refusal>) -> PairRatingRecord
        ensures { result ≡ rating_of answer }
    {
        match answer {
            Ok(rating) => PairRatingRecord {
                refusal: RefusalRecord::GRANTED,
                rating,
            },
            Err(refusal) => PairRatingRecord {
                refusal: RefusalRecord::of(refusal),
                rating: NO_RATING,
            },
        }
    }
}
