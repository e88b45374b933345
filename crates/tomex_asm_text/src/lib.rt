//! A program in assembly, from the tokens of a line to what it says: labels, instructions, pseudoinstructions and
//! directives, before any value is known.
//!
//! Source: The RISC-V Instruction Set Manual, Volume I: Unprivileged ISA, version 20191213, chapters "RV32I Base
//! Integer Instruction Set", "M Standard Extension" and "RISC-V Assembly Programmer's Handbook".
//! Tests: tomex_tests_in_order.
#![tactic(auto)]

mod directive;
mod directives;
mod forms;
mod line;
mod list;
mod mnemonic;
mod operands;
mod pseudo;
mod reading;
mod statement;
mod value;

pub use directive::Directive;
pub use line::{Line, line_at};
pub use list::Element;
pub use mnemonic::Mnemonic;
pub use operands::Place;
pub use reading::text_of;
pub use statement::{Alignment, Binding, Immediate, Kind, Section, Statement, Template};
pub use value::{Position, Step};
