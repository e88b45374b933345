//! The ends of programs on a front row.

use std::alloc::{Allocator, Global};
use tomex_rvexec::EndKind;

/// The end of a program on a row.
#[derive(Drop)]
pub struct ProgramEnd<A: Allocator = Global> {
    /// The cycles that its run takes.
    pub total: u64,
    pub kind: EndKind,
    /// The address of the ECALL or EBREAK.
    pub pc: u32,
    pub steps: u32,
    pub regs: [u32; 32],
    /// The bytes of the watched ranges, range by range.
    pub watched: Vec<u8, A>,
}
