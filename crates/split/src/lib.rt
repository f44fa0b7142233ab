// Splits of a network into stages: when they are lawful, and what they rate.
#![tactic(auto)]

mod judges;
mod problems;
mod stages;
mod walks;

pub use problems::Problem;
pub use stages::{Breach, Stage};
