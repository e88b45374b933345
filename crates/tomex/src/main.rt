//! The program `tomex`: a design space explorer for Tomasulo processors that run RV32IM programs.
#![tactic(auto)]

use std::process::ExitCode;
use tomex_command::run_of;
pub use tomex_command::{Heaps, RunRefusal, command, run_text};
pub use tomex_streams::{HostFiles, PutFault, Sink, Stream, WriteFault, write_all_of};

fn main(rt: HostRuntime) -> ExitCode {
    run_of(&rt, rt.stdout(), rt.stderr())
}
