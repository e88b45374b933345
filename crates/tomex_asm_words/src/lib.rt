//! The bytes of a program: the second pass of the assembler.
//!
//! Source: The RISC-V Instruction Set Manual, Volume I: Unprivileged ISA, version 20191213, chapters "RV32I Base
//! Integer Instruction Set" and "RISC-V Assembly Programmer's Handbook".
//! Tests: tomex_tests_in_order.
#![tactic(auto)]

mod frame;
mod immediates;
mod output;
mod statements;
mod writing;

pub use frame::Frame;
pub use immediates::Whole;
pub use output::{Output, Remark, Said};
