// A sheet as text: what the lines of a text say, and the sheet that they make.
#![tactic(auto)]

mod causes;
mod fields;
mod items;
mod numbers;
mod reads;
mod texts;

pub use causes::{BadLine, Cause, Slip};
pub use items::Item;
pub use reads::read;
pub use texts::text;
