//! The floor of a run: the cycles that it takes if it never waits for a station, a unit or a bus. No machine with the
//! same latencies and at most the same issue width takes fewer.
//!
//! `specs/Floor.antt` is the definition, over the recurrence of `tomex_timing`; `specs/Laws.antt` says what it bounds.
//! Tests: tomex_tests_timing.
#![tactic(auto)]

mod accesses;
mod evaluate;
mod floored;
mod latest;
mod laws;
mod next;

pub use evaluate::floors;
pub use floored::Floored;
pub use laws::no_machine_is_faster;
