//! The configurations of a study that have some choices, each a name and a number: as a table, or the number of the
//! only one, which the choices name.
//! Tests: tomex_cases.
#![tactic(auto)]

mod finding;
mod found_table;
mod named_values;
mod property;
mod row_name;

pub use finding::{FindError, find_table};
pub use row_name::{RowError, RowName, row_named};
