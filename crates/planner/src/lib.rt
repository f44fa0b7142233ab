// A planner: a sheet that changes by calls, and the least split that stands for it.
#![tactic(auto)]

mod calls;
mod edits;
mod kept;
mod makes;
mod planners;
mod plans;
mod reads;
mod runs;

pub use calls::{Call, Granted, Step};
pub use kept::Kept;
pub use planners::Planner;
pub use plans::Plan;
pub use runs::run;
