//! A survey: each program's cycles on each row of a study. Most are known from other rows; the
//! others are evaluated, by workers that each handle a stretch of neighbouring rows. And a study's floors: what no
//! machine with the latencies of one of its rows goes below.
//! Tests: tomex_tests_surveys.
#![tactic(auto)]

mod floors;
mod least;
mod rows;
mod stretch;
mod surveying;
mod totals;

pub use floors::{all_floored, floors_of};
pub use least::lesser;
pub use rows::cycles_by_weight;
pub use stretch::{Stretch, stretches};
pub use surveying::{survey, surveyed};
pub use totals::totals_on_row;
