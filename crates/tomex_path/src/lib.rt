//! The critical path of a run: a chain of steps, each of which waited for the one before, with each cycle of the run
//! once.
//!
//! `specs/Holds.antt` says what holds an event of a step, over the recurrence of `tomex_timing`; `specs/Path.antt` is
//! the path, `specs/Laws.antt` says what it shows, and `specs/Bound.antt` what it bounds.
//! Tests: tomex_tests_timing.
#![tactic(auto)]

mod event;
mod hold;
mod laws;
mod link;
mod note;
mod reason;
mod walk;

pub use event::{Access, Event, Holder};
pub use hold::Hold;
pub use laws::{
    events_are_held, free_path_takes_the_floor, path_adds_up, path_bounds_what_a_machine_saves,
    path_waits_are_stalls,
};
pub use link::Link;
pub use reason::Reason;
pub use walk::{RunPath, path};
