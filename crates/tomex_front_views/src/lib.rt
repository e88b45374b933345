//! The front of a study for people: as a table, and as one picture.
//! Tests: tomex_cases.
#![tactic(auto)]

mod plot;
mod table;

pub use plot::front_picture;
pub use plot::linked::{push_link_start, push_linked_picture};
pub use plot::over_rows::rows_picture;
pub use table::front::{front_table, hull_table};
pub use table::rate::rate_after;
