//! The demands of a run, each of whose blocks is evaluated once in each state in which the run is before it.
//!
//! A program is loops: the machine is soon in a state in which it was before, with the same instructions ahead, and
//! repeats itself from there (`tomex_alike`). A table says of a kept state and a block's number (`tomex_repeats`) which
//! state follows, and how many cycles later. A block from the table costs a load and an addition.
//! `specs/Known.antt` says what is known; `proofs/Again.antt` shows that a block from the table asks for nothing new.
//! Tests: tomex_tests_timing.
#![tactic(auto)]

mod credit;
mod demands;
mod evaluation;
mod evaluator;
mod known;

pub use demands::{ByBlocks, demands_by_blocks};
pub use evaluator::Evaluator;
