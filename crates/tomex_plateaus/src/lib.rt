//! Plateaus: regions of the design space on which a program takes the same cycles. The demands of one run give one.
//! And what a worker knows by them: the cycles of a study's programs on configurations that it hasn't evaluated.
//! Tests: tomex_tests_sweeps.
#![tactic(auto)]

mod interval;
mod keys;
mod knowledge;
mod known_row;
mod laws;
mod look_laws;
mod plateau;
mod plateaus;

pub use interval::Interval;
pub use knowledge::Knowledge;
pub use known_row::KnownRow;
pub use laws::{another_number_lies_on_the_plateau, demands_give_a_plateau};
pub use look_laws::{limit_changes_no_total, the_last_look_sees_most};
pub use plateau::Plateau;
pub use plateaus::Plateaus;
