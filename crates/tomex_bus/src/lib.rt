//! The arbiter of a Tomasulo machine: if more operations are ready than units, ports or common data
//! buses are left, it serves the oldest of them. And its wheel: what is due in the cycles ahead.
//!
//! Both work on sets of numbers, a bit each: a machine's stations are numbered, and those that wait, are ready
//! or are due in a cycle are a set of numbers. So a cycle's work grows with the members of a set,
//! not with the number of stations. Sets of numbers below 64 are in `small`, others are of numbers below 128.
//! Tests: tomex_tests_timing.
#![tactic(auto)]

mod alone;
mod arbiter;
mod halves;
mod sets;
pub mod small;
mod wheel;

pub use arbiter::{oldest, pick};
pub use sets::{
    both, difference, is_single, lowest, union, with, with_if, without, without_lowest,
};
pub use wheel::Wheel;
