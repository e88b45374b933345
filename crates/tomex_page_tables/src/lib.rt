//! Tables of a study's report as a page: the programs, and the front; which rows of the front are on its hull; and the
//! texts of what a list of parts has.
//!
//! Source: the HTML Living Standard, in its XML syntax.
//! Tests: tomex_cases.
#![tactic(auto)]

mod asked;
mod choices;
mod front;
mod laws;
mod settings;
mod shown;
mod steps;
mod tables;

pub use asked::{all_parts, push_list_start, push_programs_table};
pub use choices::{Facet, push_entries, push_prices, push_some};
pub use front::{hull_mark, push_front_table, push_percent_cell, push_row_text, push_signed_cell};
pub use laws::{costs_of_parts_add_up, differences_add_up};
pub use shown::{MOST_ROWS, ShownRow, row_of, shown_rows};
pub use steps::push_steps_sentence;
pub use tables::{first_lines, push_more};
