//! RV32IM, in order: what an instruction with its operands reads, computes and stores; the machine that carries out one
//! after another; runs of an image, step by step, and their traces.
//!
//! Source: The RISC-V Instruction Set Manual, Volume I: Unprivileged ISA, version 20191213,
//! chapters "RV32I Base Integer Instruction Set" 2.1 and "M Standard Extension" 2.0.
//!
//! The environment is this project's own: memory is one window, fetches read the image as it
//! was loaded, a misaligned access is done whole, FENCE does nothing, and ECALL and EBREAK
//! end the program.
//! Tests: tomex_tests_in_order.
#![tactic(auto)]

mod access;
mod cpu;
mod decode_cache;
mod end;
mod fetcher;
pub mod laws;
mod memory;
mod operation;
mod outcome;
mod running;
mod step;
mod tracing;
mod words;

pub use cpu::{Cpu, initial_sp};
pub use end::{End, RunError};
pub use fetcher::{Fetcher, instruction_at};
pub use memory::Memory;
pub use operation::{next_pc, result, result_in, store};
pub use outcome::{EndKind, Fault, FaultKind, Stepped};
pub use running::run;
pub use step::{ByteRange, Operand, Step};
pub use tracing::trace;
pub use words::{alu, muldiv, taken};
