//! Why there is no picture.

ghost use Rattle.std.specs.Prelude.{◌≡◌};
ghost use Rattle.tomex_run_views.specs.Chart.{error_of_excerpt};
ghost use Rattle.tomex_run_views.specs.declared.picture_error.PictureError.TheVariants.{Memory};

use crate::excerpt_error::ExcerptError;
use std::alloc::{AllocError, AllocFailed};

/// Why steps of a run have no picture.
#[derive(Clone, Copy, Drop, PartialEq, Eq)]
pub enum PictureError {
    /// The run ends before the first of them.
    NoSuchStep,
    /// The number of lines times the number of columns is too large.
    TooLarge,
    /// Out of memory.
    Memory,
}

impl From<ExcerptError> for PictureError {
    ghost from_gives = { λ error e. e ≡ error_of_excerpt error };

    fn from(error: ExcerptError) -> Self {
        match error {
            ExcerptError::NoSuchStep => PictureError::NoSuchStep,
            ExcerptError::Memory => PictureError::Memory,
        }
    }
}

impl From<AllocError> for PictureError {
    ghost from_gives = { λ _ e. e ≡ Memory };

    fn from(_error: AllocError) -> Self {
        PictureError::Memory
    }
}

impl<T: Drop> From<AllocFailed<T>> for PictureError {
    ghost from_gives = { λ _ e. e ≡ Memory };

    fn from(_error: AllocFailed<T>) -> Self {
        PictureError::Memory
    }
}
