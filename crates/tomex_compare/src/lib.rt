//! Two builds of a program on all rows of a study: on which of them the new one is faster, and by how much.
//! Tests: tomex_cases, tomex_tests_commands.
#![tactic(auto)]

mod build;
mod entries;
mod extremes;
mod fronts;
mod group_records;
mod group_table;
mod groups;
mod laws;
mod pairs;
mod program_table;
mod tables;

pub use laws::{
    best_and_worst_bound_a_group, groups_of_a_list_share_all_rows, only_the_two_builds_matter,
    turned_around_gains_are_losses,
};
pub use pairs::Pair;
pub use tables::{compare_csv, compare_table};
