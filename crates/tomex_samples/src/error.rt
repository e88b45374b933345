//! Why no parts stand for a run.

ghost use Rattle.std.specs.Prelude.{◌≡◌};
ghost use Rattle.tomex_samples.specs.declared.error.PartsError.TheVariants.{Memory};

use std::alloc::AllocError;
use thiserror::Error;
use tomex_rvexec::Fault;

/// Why no parts stand for a run. `Memory` says nothing about the run.
#[derive(Clone, Copy, Debug, Drop, Error, PartialEq, Eq)]
pub enum PartsError {
    /// The run faults.
    #[error("fault: {0}")]
    Fault(Fault),
    /// The run goes on after the most stretches that are looked at.
    #[error("too long")]
    TooLong,
    /// The run has no whole stretch.
    #[error("no such step")]
    NoSuchStep,
    /// No part that begins with a stretch has an end.
    #[error("no end")]
    NoEnd,
    /// Out of memory.
    #[error("out of memory")]
    Memory,
}

impl From<AllocError> for PartsError {
    ghost from_gives = { λ _ e. e ≡ Memory };

    fn from(_error: AllocError) -> Self {
        PartsError::Memory
    }
}
