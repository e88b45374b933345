//! The Pareto front of configurations by cost and cycles: those that no other configuration dominates. It is found
//! from their costs and cycles, without their programs. And its lower convex hull: those that no mix of two beats.
//!
//! Spans: rows one measure of which, cost or cycles, grows with a value, such as a price or a weight, and for which
//! values of it a row is on the front. And by how much all such values may be wrong at once.
//! Tests: tomex_cases, tomex_tests_sweeps.
#![tactic(auto)]

mod front_row;
mod fronts;
mod hulls;
mod laws;
mod line_row;
mod percents;
mod span_laws;
mod spans;

pub use front_row::FrontRow;
pub use fronts::{front, is_on, sort_by_cost};
pub use hulls::hull;
pub use laws::{
    ends_of_the_front_are_on_the_hull, equal_rows_stay_together, front_is_the_undominated_rows,
    hull_is_the_best_for_some_worth, rates_never_rise, undominated_rows_are_on_the_front,
};
pub use line_row::LineRow;
pub use percents::percent_by;
pub use span_laws::{rows_are_on_the_front_within_their_spans, rows_stay_within_their_spans};
pub use spans::{ValueSpan, settled_span, span};
