//! The result of an exploration.

ghost use Rattle.std.specs.Prelude.{◌≡◌};
ghost use Rattle.tomex_sweep.specs.declared.outcome.SweepError.TheVariants.{Memory};

use std::alloc::{AllocError, AllocFailed, Allocator, Global};
use thiserror::Error;
use tomex_board::Mark;
use tomex_pareto::FrontRow;

/// The marks and the front of a study's rows.
#[derive(Drop)]
pub struct Outcome<A: Allocator = Global> {
    /// A mark for each row, in the order of the rows. Each is `Finished` or `Dropped`.
    pub marks: Vec<Mark, A>,
    /// The rows that no other row dominates, by cost, then number.
    pub front: Vec<FrontRow, A>,
    /// The number of rows that no worker had closed, and that were run after the workers: proved to
    /// be 0.
    pub gathered: usize,
}

/// Why an exploration has no outcome.
#[derive(Clone, Copy, Debug, Drop, Error, PartialEq, Eq)]
pub enum SweepError {
    /// Out of memory.
    #[error("out of memory")]
    Memory,
    /// A worker's thread can't be started.
    #[error("thread refused")]
    Worker,
}

impl From<AllocError> for SweepError {
    ghost from_gives = { λ _ e. e ≡ Memory };

    fn from(_error: AllocError) -> Self {
        SweepError::Memory
    }
}

impl<T: Drop> From<AllocFailed<T>> for SweepError {
    ghost from_gives = { λ _ e. e ≡ Memory };

    fn from(_error: AllocFailed<T>) -> Self {
        SweepError::Memory
    }
}
