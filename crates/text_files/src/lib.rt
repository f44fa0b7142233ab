// A text to the bytes of a sheet file, and a sheet file to its text.
#![tactic(auto)]

mod describes;
mod makes;

pub use describes::describe_file;
pub use makes::{MOST_FILE, make_file};
