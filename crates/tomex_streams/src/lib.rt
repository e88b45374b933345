//! The program's input and output: files, which are read whole, and sinks, which may take less than
//! they are given.
//! Tests: tomex_tests_lines.
#![tactic(auto)]

mod files;
mod meter;
mod sink;

pub use files::{Files, HostFiles, ReadFault, bytes_within};
pub use meter::{Counted, HINT, Meter, NoMeter, Progress, TerminalMeter};
pub use sink::{PutFault, Sink, Stream, WriteFault, write_all_of};
