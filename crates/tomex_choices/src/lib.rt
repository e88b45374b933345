//! Which choices of a study's lists are of use: those that a list lacks and what they would bring, by evaluating new
//! machines as rows are; and from which number on nothing changes.
//! Tests: tomex_cases, tomex_tests_surveys.
#![tactic(auto)]

mod asking;
mod entries;
mod found;
mod laws;
mod new_machine;
mod saving;
mod searching;
mod useful;
mod weighing;

pub use laws::{
    additions_are_all_that_is_needed, complete_lists_are_complete, covered_machines_add_no_points,
    floor_bounds_machines_of_all_sizes, longer_lists_at_once_add_nothing,
    more_of_the_unneeded_changes_nothing, more_than_enough_changes_nothing,
    nothing_to_add_is_covered, unused_choices_may_go,
};
pub use new_machine::NewMachine;
pub use weighing::{WeighedChoices, weigh_choices};
