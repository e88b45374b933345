//! ELF files of 32 bits with one segment, a window's whole memory: their headers, and the file without sections.
//!
//! Source: System V Application Binary Interface, "ELF Header" and "Program Header".
//! Tests: tomex_tests_in_order, tomex_cases.
#![tactic(auto)]

mod file;

pub use file::{HEADERS, SectionTable, file_of, push_halves, push_headers, push_words};
