// Device kinds: what each answers for a stage's figures.
#![tactic(auto)]

mod accelerators;
mod kinds;
mod loads;
mod processors;
mod which_kinds;

pub use accelerators::Accelerator;
pub use kinds::Kind;
pub use loads::Load;
pub use processors::Processor;
pub use which_kinds::{UnknownKind, WhichKind};
