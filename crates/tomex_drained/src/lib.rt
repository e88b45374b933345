//! Runs that begin with steps after which nothing is under way: the rest takes what it takes in a run of its own. So
//! does a part of a long run after the prologue that `tomex_cut` puts before it.
//!
//! `specs/Drained.antt` says when nothing is under way, over the recurrence of `tomex_timing`, and `specs/Parts.antt`
//! what a part's image takes. There is no code, so there are no tests: `proofs/Worked.antt` computes short runs.
#![tactic(auto)]

pub mod laws;
