//! Why there is no excerpt.

ghost use Rattle.std.specs.Prelude.{◌≡◌};
ghost use Rattle.tomex_run_views.specs.declared.excerpt_error.ExcerptError.TheVariants.{Memory};

use std::alloc::{AllocError, AllocFailed};

/// Why an excerpt of a run can't be made.
#[derive(Clone, Copy, Drop, PartialEq, Eq)]
pub enum ExcerptError {
    /// The run ends before the first of them.
    NoSuchStep,
    /// Out of memory.
    Memory,
}

impl From<AllocError> for ExcerptError {
    ghost from_gives = { λ _ e. e ≡ Memory };

    fn from(_error: AllocError) -> Self {
        ExcerptError::Memory
    }
}

impl<T: Drop> From<AllocFailed<T>> for ExcerptError {
    ghost from_gives = { λ _ e. e ≡ Memory };

    fn from(_error: AllocFailed<T>) -> Self {
        ExcerptError::Memory
    }
}
