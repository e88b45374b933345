//! The commands: each command's text, the reports of failures, and a whole run of the program over any files and sinks.
//! Tests: tomex_cases, tomex_tests_commands.
#![tactic(auto)]

mod commands;
mod failure;
mod heaps;
mod metered;
mod process;
mod reporting;
mod run;
mod stepping;

pub use commands::command;
pub use failure::Failure;
pub use heaps::Heaps;
pub use process::{run_of, run_words};
pub use reporting::{report_failure, report_line_fault};
pub use run::{RunRefusal, run_text};
