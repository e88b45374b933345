//! The result of a whole run.

ghost use Rattle.std.specs.Prelude.{◌≡◌};
ghost use Rattle.tomex_rvexec.specs.declared.end.RunError.TheVariants.{Memory};

use crate::outcome::{EndKind, Fault};
use std::alloc::{AllocError, AllocFailed, Allocator, Global};

/// The end of a program.
///
/// `pc` is the address of the ECALL or EBREAK; `steps` counts it too.
#[derive(Drop)]
pub struct End<A: Allocator = Global> {
    pub kind: EndKind,
    pub pc: u32,
    pub steps: u32,
    pub regs: [u32; 32],
    pub memory: crate::Memory<A>,
}

/// Why a run has no end.
#[derive(Clone, Copy, Debug, Drop, PartialEq, Eq)]
pub enum RunError {
    /// An instruction can't be carried out.
    Fault(Fault),
    /// The program neither ends nor faults within the limit of steps.
    TooLong,
    /// Out of memory.
    Memory,
}

impl From<AllocError> for RunError {
    ghost from_gives = { λ _ e. e ≡ Memory };

    fn from(_error: AllocError) -> Self {
        RunError::Memory
    }
}

impl<T: Drop> From<AllocFailed<T>> for RunError {
    ghost from_gives = { λ _ e. e ≡ Memory };

    fn from(_error: AllocFailed<T>) -> Self {
        RunError::Memory
    }
}
