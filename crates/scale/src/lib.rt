// Scales: how splits are rated, and how ratings compare.
#![tactic(auto)]

mod lines;
mod pairs;
mod peaks;
mod scales;

pub use lines::Line;
pub use pairs::{Pair, PairRating};
pub use peaks::Peak;
pub use scales::Scale;
