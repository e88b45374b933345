//! The functions of a program, as texts show them, where in them the cycles of a run go, and how many cycles each
//! function takes in two builds of a program.
//! Tests: tomex_cases, tomex_tests_in_order.
#![tactic(auto)]

mod builds;
mod by_function;
mod by_place;
mod calls;
mod change_laws;
mod function_rows;
mod functions_error;
mod index;
mod laws;
mod named;
mod report;
mod rows;
mod shares;
mod shown_names;

pub use builds::BuildRun;
pub use by_function::stalls_by_function;
pub use by_place::{FunctionColumn, stalls_by_pc_and_function};
pub use change_laws::{changes_add_up, names_have_their_steps};
pub use function_rows::{RowColumns, push_address, put_rows};
pub use functions_error::FunctionsError;
pub use index::{Index, key_of, keys_of};
pub use laws::functions_add_up;
pub use report::function_changes;
pub use rows::{Listing, Row, listing_of, sort_rows};
pub use shown_names::{push_function, shown_function};
