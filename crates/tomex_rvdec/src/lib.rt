//! Instructions of RV32IM: the words that mean them, and the parts of a machine that each of them
//! uses.
//!
//! Source: The RISC-V Instruction Set Manual, Volume I: Unprivileged ISA, version 20191213,
//! chapters "RV32I Base Integer Instruction Set" 2.1 and "M Standard Extension" 2.0.
//! Tests: tomex_tests_in_order.
#![tactic(auto)]

mod decoding;
mod display;
mod encoding;
mod fields;
mod instr;
mod laws;
mod op;
mod pool;
mod pool_table;

pub use decoding::decode;
pub use encoding::encode;
pub use instr::{Instr, Sources};
pub use laws::{
    instruction_has_one_word, meaning_is_the_table, what_fits_is_an_instruction,
    word_means_one_instruction,
};
pub use op::{Form, Op};
pub use pool::{PoolId, UnitId};
