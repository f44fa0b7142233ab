// A sheet: the operators of a network with their figures and edges, and the counts of devices; and the figures of its stages.
#![tactic(auto)]

mod counts;
mod edits;
mod figures;
mod nodes;
mod operators;
mod reads;
mod sheets;
mod sums;

pub use counts::Counts;
pub use figures::StageFigures;
pub use nodes::Node;
pub use operators::{Figure, Operator};
pub use sheets::Sheet;
