//! The rows of a study, dealt in turn to workers. Each worker has its rows in a deque that is first in,
//! first out, and may steal from the deques of the others.
//!
//! A deque is filled before any worker starts, and nothing is added later: `specs/Rule.antt` is the
//! rule that holds before and after each step on it.
//! Tests: tomex_tests_sweeps.
#![tactic(auto)]

mod dealt;
mod deque;
mod known;
mod lane;
mod lanes;
pub mod laws;
mod owner;
mod rule;
mod worker;

pub use dealt::{Dealt, settle};
pub use deque::{RowDeque, Victim};
pub use lane::Lane;
pub use lanes::deal;
pub use worker::{Worker, seat_workers};
