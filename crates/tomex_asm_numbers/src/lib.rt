//! The numbers that values in assembly are: constants, and addresses in a section; and what the words of a text stand
//! for.
//!
//! Source: The RISC-V Instruction Set Manual, Volume I: Unprivileged ISA, version 20191213, chapter "RISC-V Assembly
//! Programmer's Handbook".
//! Tests: tomex_tests_in_order.
#![tactic(auto)]

mod halves;
mod number;
mod table;
mod value;

pub use halves::{high, low, wrapped};
pub use number::{Number, within};
pub use table::{Definition, Table};
pub use value::{Next, Partial, Scope, at_place, place_of_value};
