//! A worker's steps on configurations: it takes them, claims each on the board, finds its cycles,
//! and closes it.
//! Tests: tomex_tests_sweeps.
#![tactic(auto)]

mod desk;
mod working;

pub use working::work;
