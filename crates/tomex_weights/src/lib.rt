//! Weights: the values of one program's weight, all others as stated, for which a row is on the front; and the rows
//! that join it. The percentage by which all weights may be wrong at once. And the table of all that, also as CSV.
//! Tests: tomex_cases, tomex_tests_surveys.
#![tactic(auto)]

mod columns;
mod laws;
mod line_rows;
mod listed;
mod percents;
mod programs;
mod records;
mod spans;
mod table;
mod texts;

pub use columns::{WeightColumn, weight_columns};
pub use laws::{
    all_rows_that_come_are_listed, all_weights_may_be_wrong_by_the_percentage,
    best_rows_stay_at_any_mix, irrelevant_weights_are_any, on_front_exactly_within,
    stated_weights_are_within, whole_weights_are_within,
};
pub use line_rows::rows_by_weight;
pub use listed::listed_rows;
pub use percents::percent;
pub use programs::relevant_programs;
pub use records::weights_csv;
pub use spans::{GREATEST_WEIGHT, span_of};
pub use table::weights_table;
pub use texts::span_text;
