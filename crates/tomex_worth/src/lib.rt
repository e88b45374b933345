//! What one more or one less part is worth on a machine: in cost, in cycles, and in cycles for 1 of
//! cost.
//! Tests: tomex_cases.
#![tactic(auto)]

mod changes;
mod heading;
mod kind;
mod records;
mod table;

pub use changes::{Change, changes_of};
pub use records::worth_csv;
pub use table::worth_table;
