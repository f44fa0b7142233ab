// Finding a least split, for programs in other languages: over the bytes of a sheet file and three lent tables, on the scale peak.
#![tactic(auto)]

mod answers;
mod searches;

pub use answers::{Answer, StageRecord};
pub use searches::planner_find_split;
