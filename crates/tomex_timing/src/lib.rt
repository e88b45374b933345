//! The times at which each step of a run issues, gets its address, starts, finishes and ends on a Tomasulo machine
//! without speculation: a recurrence over the steps of the in-order run, and its evaluation.
//!
//! Sources: R. M. Tomasulo, "An Efficient Algorithm for Exploiting Multiple Arithmetic Units", 1967, and the chapter on
//! Tomasulo's algorithm in Hennessy and Patterson's "Computer Architecture: A Quantitative Approach".
//! `specs/Recurrence.antt` is the definition; `specs/Tables.antt` says what stations and registers show after a cycle.
//! Tests: tomex_tests_timing.
#![tactic(auto)]

mod accesses;
mod asking;
mod demands;
pub mod evaluate;
mod laws;
mod need;
mod needs;
mod next;
mod recent;
mod run;
mod tables;
mod times;
mod turn;
mod waiting;

pub use accesses::Access;
pub use asking::ask_next;
pub use demands::{Demand, Demands};
pub use laws::{
    accesses_of_one_byte_wait, all_parts_stand_in_order, cycles_are_accounted_for,
    each_step_has_one_set_of_times, issues_alone_at_width_one, issues_fit_the_width,
    parts_without_stalls_may_differ, search_is_the_recurrence, stations_hold_one_step,
    times_stand_in_order, total_is_bounded, total_is_the_greatest_end, waits_add_up_to_stalls,
    younger_steps_change_nothing,
};
pub use need::{Need, Waits};
pub use needs::Needs;
pub use next::{Marks, Next, end_of, issue_from};
pub use recent::{Facts, Latest, Recent};
pub use run::Run;
pub use tables::{Busy, Field, Tables, Tag};
pub use times::{Done, Times};
pub use turn::{Turn, next_turn};
