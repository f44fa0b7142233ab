// The text of a report on a sheet file.
#![tactic(auto)]

mod answers;
mod descriptions;
mod listed;
mod networks;
mod plans;
mod reports;
mod rows;
mod stage_lists;
mod summaries;
#[cfg(test)]
mod tests;

pub use descriptions::describe;
pub use reports::report;
