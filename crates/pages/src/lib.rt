// The pace of a split, and its page: the split as text in a lent buffer.
#![tactic(auto)]

mod lengths;
mod paces;
mod puts;
#[cfg(test)]
mod tests;
mod writes;

pub use paces::pace;
pub use writes::{MOST_PAGE, write_page};
