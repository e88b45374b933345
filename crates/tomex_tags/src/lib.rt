//! Reservation stations, their tags, and the register status of a Tomasulo machine.
//!
//! An instruction that issues takes a station of its pool. A missing operand is named by the tag of
//! the station that will send it; so is each register whose youngest writer hasn't sent its result.
//! A broadcast replaces a tag by a value wherever it occurs.
//!
//! Sources: R. M. Tomasulo, "An Efficient Algorithm for Exploiting Multiple Arithmetic Units", 1967,
//! and the chapter on Tomasulo's algorithm in Hennessy and Patterson's "Computer Architecture: A
//! Quantitative Approach" (the fields Op, Vj, Vk, Qj, Qk, A and Qi).
//! Tests: tomex_tests_timing.
#![tactic(auto)]

mod broadcasting;
mod issuing;
mod listeners;
mod places;
mod pools;
mod register_status;
mod station;
mod stations;
mod wait_sets;

pub use broadcasting::broadcast;
pub use issuing::issue;
pub use places::{place, places_served_by, tag, unit};
pub use pools::Pools;
pub use register_status::RegStatus;
pub use station::Station;
pub use stations::Stations;
pub use tomex_timing::Tag;
