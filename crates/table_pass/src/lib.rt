// The table pass: fills the cells of every ideal, one text for every type of rating.
#![tactic(auto)]

mod fills;
mod passes;

pub use fills::fill;
