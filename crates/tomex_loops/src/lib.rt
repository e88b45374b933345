//! The loops of a run, found in its steps: no symbols, no graph of the program, no order of addresses, and no machine.
//!
//! `specs/Calls.antt` says how a run reaches each step, `specs/Loops.antt` what a loop is, `specs/Visits.antt` what its
//! visits and rounds are, and `specs/Rounds.antt` and `Pattern.antt` what is counted of rounds.
//!
//! Tests: tomex_tests_timing, tomex_tests_commands.
#![tactic(auto)]

mod coming;
mod counts;
mod finding;
mod forest;
mod laws;
mod loops;
mod pattern;
mod visit;
mod visiting;

pub use coming::{Coming, Move};
pub use counts::{Counts, count_rounds};
pub use laws::{innermost_visits_began_last, loops_are_a_nest, loops_are_sound, visits_are_a_nest};
pub use loops::Loops;
pub use pattern::pattern_of;
pub use visit::{Open, Round, Visit};
