// Sheet files: reading and judging them; writing them is handed on from the crate below.
#![tactic(auto)]

mod bodies;
mod contents;
mod loads;
mod readers;

pub use loads::load;
pub use readers::{Part, Reader};
pub use sheet_writer::{file_length, write};
