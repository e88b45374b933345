//! The load and store buffers of a Tomasulo machine.
//!
//! Addresses are computed in program order. An access waits for the older ones that share a byte
//! with it, if one of the two is a store; nothing is forwarded from a store to a load.
//! Tests: tomex_tests_timing.
#![tactic(auto)]

mod accesses;
mod addresses;
mod order;

pub use accesses::{access, read, write};
pub use addresses::address_next;
pub use order::{is_alone, may_access};
