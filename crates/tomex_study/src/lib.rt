//! Studies: programs that are known to end, the configurations on which they run, the cost of each,
//! and the ranges of memory that a report shows; studies with each program's cycles on each row; and plain records of
//! what else is found out of a study.
//!
//! Nothing here reads a file or runs a machine: callers make a study of parts that they have.
//! Tests: tomex_tests_studies.
#![tactic(auto)]

mod choices;
mod gate;
mod list_report;
mod program;
mod study;
mod surveyed;
mod watch;

pub use choices::{front_choices, unused};
pub use gate::{Gate, OpenGate};
pub use list_report::{Floors, ListReport, Saving};
pub use program::{Program, ProgramError};
pub use study::Study;
pub use surveyed::Surveyed;
pub use watch::{WatchRange, can_watch, watched_bytes};
