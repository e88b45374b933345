//! The table of a run's loops: how often each goes round, in how many cycles, how many of these no machine saves, and
//! what holds it.
//!
//! `specs/LoopsReport.antt` says what the table has of each loop, and `specs/Laws.antt` what may be concluded.
//! Tests: tomex_cases, tomex_tests_commands.
#![tactic(auto)]

mod charges;
mod fields;
mod laws;
mod lines;
mod path_cycles;
mod paths;
mod places;
mod report;
mod row;
mod table;

pub use laws::{
    floors_are_within_the_runs, free_runs_are_least, loops_add_up, loops_are_the_programs,
    no_machine_saves_more_of_a_loop,
};
pub use path_cycles::path_cycles_add_up;
pub use report::loops_report;
