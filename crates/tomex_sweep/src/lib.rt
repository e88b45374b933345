//! Explorations of studies: workers take configurations, run them and mark them on a board that
//! they share, and the front is that of the marks. Runs whose cycles are known, or that can't
//! change the front, are skipped. And the exploration that runs each configuration by the machine.
//! Tests: tomex_tests_sweeps.
#![tactic(auto)]

mod crew;
mod exhaustive;
mod exploring;
mod finished;
mod leftovers;
mod outcome;
mod runs;
mod stacks;

pub use exhaustive::{run_all, run_all_under};
pub use exploring::{explore, explore_on};
pub use outcome::{Outcome, SweepError};
pub use runs::{MOST_CYCLES, Runs};
pub use stacks::{Stacks, UsualStacks};
pub use tomex_board::Mark;
pub use tomex_pareto::{FrontRow, front_is_the_undominated_rows};
pub use tomex_plateaus::limit_changes_no_total;
pub use tomex_study::{
    Gate, OpenGate, Program, ProgramError, Study, WatchRange, can_watch, watched_bytes,
};
pub use tomex_workers::work;
