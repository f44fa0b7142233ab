// A planner on the scale peak, as a caller in C keeps it, and its answers with a rating in them.
ghost use Rattle.std.specs.Prelude.{◌≡◌};
ghost use Rattle.controller.specs.Peaks.{plan_of, rating_of};

use super::RefusalRecord;
use planner::{Kept, Plan};
use refusals::Refusal;

// Memory that keeps a planner.
#[repr(C)]
#[derive(Drop)]
pub struct PeakPlanner {
    pub(crate) kept: Kept,
    pub(crate) rating: u32,
}

// so large as the header has it
const _: () = prove!(std::mem::size_of::<PeakPlanner>() == 1_840);

#[repr(C)]
#[derive(Clone, Copy)]
pub struct PeakPlanRecord {
    pub refusal: RefusalRecord,
    pub stages: usize,
    pub ideals: usize,
    pub rating: u32,
}

#[repr(C)]
#[derive(Clone, Copy)]
pub struct PeakRatingRecord {
    pub refusal: RefusalRecord,
    pub rating: u32,
}

impl PeakPlanRecord {
    pub(crate) fn of(answer: Result<Plan<u32>, Refusal>) -> PeakPlanRecord
        ensures { result ≡ plan_of answer }
    {
        match answer {
            Ok(plan) => PeakPlanRecord {
                refusal: RefusalRecord::GRANTED,
                stages: plan.stages,
                ideals: plan.ideals,
                rating: plan.rating,
            },
            Err(refusal) => PeakPlanRecord {
                refusal: RefusalRecord::of(refusal),
                stages: 0,
                ideals: 0,
                rating: 0,
            },
        }
    }
}

impl PeakRatingRecord {
    pub(crate) fn of(answer: Result<u32, Refusal>) -> PeakRatingRecord
        ensures { result ≡ rating_of answer }
    {
        match answer {
            Ok(rating) => PeakRatingRecord {
                refusal: RefusalRecord::GRANTED,
                rating,
            },
            Err(refusal) => PeakRatingRecord {
                refusal: RefusalRecord::of(refusal),
                rating: 0,
            },
        }
    }
}
