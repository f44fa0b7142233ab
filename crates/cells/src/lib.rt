// The cells of the two tables: a rating and a choice each. A row has the cells of one ideal.
#![tactic(auto)]

mod choices;
mod row_errors;
mod rows;
mod tables;

pub use choices::Choice;
pub use row_errors::RowError;
pub use rows::{Rows, width};
pub use tables::Tables;
