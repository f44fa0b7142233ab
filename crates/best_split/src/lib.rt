// A least split of a sheet: the ideals are listed, the cells filled, and the stages read back.
#![tactic(auto)]

mod filled_tables;
mod finds;
mod places;
mod splits;

pub use finds::{Found, find};
pub use splits::Split;
