//! What is known of each loop of a run, by its number: its rounds, and what those of its longest visit repeat; its
//! steps, their cycles, and what no machine saves of them; their addresses; and the loop around it.
//!
//! `specs/OfLoop.antt` says what is known of a loop's rounds and steps, over the lists of `specs/ByLoop.antt`.
//! Tests: tomex_cases, tomex_tests_commands.
#![tactic(auto)]

mod around;
mod extents;
mod groups;
mod longest;
mod spans;
mod spent;
mod turns;
mod visited;

pub use around::{Around, around_of};
pub use extents::{Extent, extents_of};
pub use groups::{grouped, no_groups};
pub use spans::Span;
pub use spent::{Spent, spent_of, steps_without};
pub use turns::{Turns, turns_of};
pub use visited::{loops_of, values_of, within_of};
