//! A run's steps in blocks, of which equal ones have one number: what is the same to the recurrence of `tomex_timing`
//! in many places of a run.
//!
//! `specs/Blocks.antt` says when two blocks are the same; `specs/Laws.antt` has what follows.
//! Tests: tomex_tests_timing.
#![tactic(auto)]

mod blocks;
mod conflicts;
mod cut;
mod laws;
mod numbers;

pub use blocks::{Block, Blocks};
pub use laws::blocks_of_one_number_are_the_same;
