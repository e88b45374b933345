//! A Tomasulo machine without speculation, cycle by cycle.
//!
//! Sources: R. M. Tomasulo, "An Efficient Algorithm for Exploiting Multiple Arithmetic Units", 1967,
//! and the chapter on Tomasulo's algorithm in Hennessy and Patterson's "Computer Architecture: A
//! Quantitative Approach". What the machine does in a cycle is proved to be the timing recurrence
//! (`tomex_timing`) and the in-order run (`tomex_rvexec`).
//! Tests: tomex_tests_timing, tomex_tests_sweeps.
#![tactic(auto)]

mod activity;
mod ends;
mod fetch;
mod finishes;
mod inner;
mod issue;
mod machine;
mod phases;
mod progress;
mod skipping;
mod starts;

pub use machine::Machine;
pub use progress::Progress;
pub use tomex_timing::Tables;
