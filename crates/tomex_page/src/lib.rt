//! A study's report as one HTML page: the picture of all rows, what was asked, the front, and a view for each row of
//! the front, with its parts, what one part changed brings, the prices with which it stays, and its runs.
//!
//! Source: the HTML Living Standard, in its XML syntax.
//! Tests: tomex_cases, tomex_tests_commands.
#![tactic(auto)]

mod bars;
mod charts;
mod constants;
mod laws;
mod overview;
mod page;
mod runs;
mod section;
mod stalls;

pub use laws::{
    choices_are_added, cycles_add_up, links_lead_to_views, on_path_is_within_all,
    rates_are_the_hulls,
};
pub use page::study_page;
