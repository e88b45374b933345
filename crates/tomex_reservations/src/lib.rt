//! What the steps of a run reserve in a machine: its reservation stations up to their ends, its
//! units and common data buses in the cycles ahead.
//! Tests: tomex_tests_timing.
#![tactic(auto)]

mod free_stations;
mod reservation_table;

pub use free_stations::{FreeStation, Stations};
pub use reservation_table::{BUSES, ReservationTable, Room};
