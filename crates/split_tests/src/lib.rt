// Tests of kinds, scales and the judge; and the least that keeps their laws: a kind on which nothing fits, a scale that rates all alike.
#![tactic(auto)]

mod extremes;

pub use extremes::{Alike, Nothing};

#[cfg(test)]
mod judgements;
#[cfg(test)]
mod loads;
