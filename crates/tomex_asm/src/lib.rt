//! An assembler: from a program in assembly to an ELF executable with symbols.
//!
//! Source: System V Application Binary Interface, "Sections" and "Symbol Table".
//! Tests: tomex_tests_in_order.
#![tactic(auto)]

mod assembling;
mod attributes;
mod file;
mod first;
mod laws;
mod program;
mod refusal;
mod second;
mod symbols;

pub use assembling::assemble;
pub use attributes::Attributes;
pub use laws::halves_make_the_number;
pub use program::Program;
pub use refusal::{AsmError, Refusal};
pub use second::Second;
pub use symbols::Symbol;
