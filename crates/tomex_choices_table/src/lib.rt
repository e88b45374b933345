//! The table of a study's choices: which are on the front, which may go, and which are worth adding.
//! Tests: tomex_cases, tomex_tests_surveys.
#![tactic(auto)]

mod cells;
mod heading;
mod records;
mod table;

pub use cells::{push_cost, push_enough, push_entries, push_saving};
pub use records::choices_csv;
pub use table::{choices_table, push_floor};
