// A planner for controllers whose programs are in C: a call of the planner for each function of include/controller.h, over memory that the caller lends.
#![tactic(auto)]

mod answers;
mod edits;
mod line_edits;
mod line_reads;
mod lines;
mod pair_edits;
mod pair_reads;
mod pairs;
mod peak_edits;
mod peak_reads;
mod peaks;
mod plans;
mod reads;
mod refused;

pub use answers::{MarginRecord, NumberRecord, StageRecord};
pub use lines::{LinePlanRecord, LinePlanner, LineRatingRecord};
pub use pairs::{PairPlanRecord, PairPlanner, PairRatingRecord};
pub use peaks::{PeakPlanRecord, PeakPlanner, PeakRatingRecord};
pub use refused::RefusalRecord;
