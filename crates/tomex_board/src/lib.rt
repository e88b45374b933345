//! The board that workers share while they explore: a mark for each row, and price bands in which
//! finished rows are published, so that costlier and slower ones can be given up.
//!
//! A thread works on a board through a seat of its own. Every call is a few single atomic steps on
//! words of 64 bits; none waits, and only `Board::new` allocates. `specs/Rule.antt` is the rule
//! that holds before and after each step, `specs/Steps.antt` the kinds of step.
//! Tests: tomex_tests_sweeps.
#![tactic(auto)]

mod board;
mod bound;
mod floors;
pub mod laws;
mod mark;
mod plan;
mod rule;
mod view;
mod words;

pub use board::{Board, Seat};
pub use bound::Bound;
pub use mark::Mark;
pub use plan::Plan;
