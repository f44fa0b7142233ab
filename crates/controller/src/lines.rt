// A planner on the scale line, as a caller in C keeps it, and its answers with a rating in them.
ghost use Rattle.std.specs.Prelude.{◌≡◌};
ghost use Rattle.controller.specs.Lines.{plan_of, rating_of};

use super::RefusalRecord;
use planner::{Kept, Plan};
use refusals::Refusal;

// Memory that keeps a planner.
#[repr(C)]
#[derive(Drop)]
pub struct LinePlanner {
    pub(crate) kept: Kept,
    pub(crate) rating: u64,
}

// so large as the header has it
const _: () = prove!(std::mem::size_of::<LinePlanner>() == 1_840);

#[repr(C)]
#[derive(Clone, Copy)]
pub struct LinePlanRecord {
    pub refusal: RefusalRecord,
    pub stages: usize,
    pub ideals: usize,
    pub rating: u64,
}

#[repr(C)]
#[derive(Clone, Copy)]
pub struct LineRatingRecord {
    pub refusal: RefusalRecord,
    pub rating: u64,
}

impl LinePlanRecord {
    pub(crate) fn of(answer: Result<Plan<u64>, Refusal>) -> LinePlanRecord
        ensures { result ≡ plan_of answer }
    {
        match answer {
            Ok(plan) => LinePlanRecord {
                refusal: RefusalRecord::GRANTED,
                stages: plan.stages,
                ideals: plan.ideals,
                rating: plan.rating,
            },
            Err(refusal) => LinePlanRecord {
                refusal: RefusalRecord::of(refusal),
                stages: 0,
                ideals: 0,
                rating: 0,
            },
        }
    }
}

impl LineRatingRecord {
    pub(crate) fn of(answer: Result<u64, Refusal>) -> LineRatingRecord
        ensures { result ≡ rating_of answer }
    {
        match answer {
            Ok(rating) => LineRatingRecord {
                refusal: RefusalRecord::GRANTED,
                rating,
            },
            Err(refusal) => LineRatingRecord {
                refusal: RefusalRecord::of(refusal),
                rating: 0,
            },
        }
    }
}
