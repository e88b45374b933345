//! The arguments of a command line as `clap` read them, and lines that ask for no command.
//! Tests: tomex_tests_lines, tomex_tests_commands.
#![tactic(auto)]

mod fault;
mod system;
mod values;

pub use fault::{LineFault, fault_of, refusal_of};
pub use system::{not_text, reading_fault};
pub use values::{
    Bounds, LongBounds, each_of, flag_of, long_number_of, number_of, word_of, words_of,
};
