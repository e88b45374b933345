//! The state of an evaluation between the blocks of a run: all that is held of the steps so far. Two states that look
//! alike can stand for each other: one that is kept is moved to where a run comes back to it.
//!
//! `specs/States.antt` says which histories a state shows, by the terms of `tomex_alike`.
//! Tests: tomex_tests_timing, by evaluations.
#![tactic(auto)]

mod compare;
mod keep;
mod shift;
mod state;

pub use state::{State, Window};
