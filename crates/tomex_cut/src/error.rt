//! Why a part of a run has no image.

ghost use Rattle.std.specs.Prelude.{◌≡◌};
ghost use Rattle.tomex_cut.specs.declared.error.CutError.TheVariants.{Memory};

use std::alloc::AllocError;
use thiserror::Error;
use tomex_rvexec::Fault;

/// Why a part of a run has no image. `Memory` says nothing about the run.
#[derive(Clone, Copy, Debug, Drop, Error, PartialEq, Eq)]
pub enum CutError {
    /// The run faults before its part ends.
    #[error("fault: {0}")]
    Fault(Fault),
    /// The run ends before the part's first step.
    #[error("no such step")]
    NoSuchStep,
    /// After the most steps that a part may have there is no end.
    #[error("no end")]
    NoEnd,
    /// Before the part, a store changed a word that is code of the part.
    #[error("code overwritten")]
    Overwritten,
    /// The window has no place for the prologue.
    #[error("no room")]
    NoRoom,
    /// Out of memory.
    #[error("out of memory")]
    Memory,
}

impl From<AllocError> for CutError {
    ghost from_gives = { λ _ e. e ≡ Memory };

    fn from(_error: AllocError) -> Self {
        CutError::Memory
    }
}

impl From<Fault> for CutError {
    ghost use Rattle.tomex_cut.specs.declared.error.CutError.TheVariants as errors;

    ghost from_gives = { λ f e. e ≡ errors.Fault f };

    fn from(fault: Fault) -> Self {
        CutError::Fault(fault)
    }
}
