//! Values of a TOML document: the table, number or list under a key, and the refusals, which name
//! place and key.
//! Tests: tomex_tests_studies.
#![tactic(auto)]

mod error;
mod lists;
mod numbers;
mod place;
mod table;

pub use error::DocumentError;
pub use lists::{are_integers, counts_at, items_count, tables_at, tables_from};
pub use numbers::{Limits, number_at, number_of};
pub use place::{Key, Place};
pub use table::{has_key, known_keys, table_at, value_at};
