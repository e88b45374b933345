//! A program in assembly, from its characters to the tokens of its lines: comments, words, numbers, local labels,
//! strings and marks, and the names of registers.
//!
//! Source: The RISC-V Instruction Set Manual, Volume I: Unprivileged ISA, version 20191213, chapter "RISC-V Assembly
//! Programmer's Handbook".
//! Tests: tomex_tests_in_order.
#![tactic(auto)]

mod bare;
mod cause;
mod characters;
mod lexing;
mod literal;
mod mode;
mod names;
mod numeral;
mod registers;
mod strings;
mod token;

pub use bare::without_comments;
pub use cause::{Cause, Fault, ReadError, Thing};
pub use characters::is_blank;
pub use lexing::read_tokens;
pub use mode::Mode;
pub use names::named;
pub use numeral::{GREATEST, LEAST};
pub use registers::register_named;
pub use strings::{push_string, string_length};
pub use token::{Mark, Sort, Token};
