//! The tables that a study's report has of each row of the front: its parts, what one part changed brings, and the
//! prices with which it stays. And of the choices of its lists: which of them no row of the front has, how far the
//! fastest row is from the floors, and what choices that the lists lack would bring.
//!
//! Source: the HTML Living Standard, in its XML syntax.
//! Tests: tomex_cases.
#![tactic(auto)]

mod additions;
mod changed;
mod lists;
mod parts;
mod sentence;
mod stays;

pub use additions::push_choices_table;
pub use changed::push_changes_table;
pub use lists::push_lists_table;
pub use parts::{push_against, push_parts_table};
pub use sentence::push_floor_sentence;
pub use stays::{PriceBook, push_prices_table};
