//! When two histories look alike to the next step, and what follows: a run that comes back to a state, relative to the
//! first cycle in which the next step may issue, with the same instructions and conflicts ahead, repeats itself.
//!
//! `specs/Alike.antt` says when histories look alike, over the recurrence of `tomex_timing`; `specs/Laws.antt` has the
//! laws. There is no code, so there are no tests: `proofs/Rows.antt` computes rounds of two loops.
#![tactic(auto)]

mod laws;

pub use laws::{
    blocks_repeat_themselves, runs_that_come_back_repeat_themselves, steps_repeat_themselves,
    to_look_alike_is_an_equivalence,
};
