//! Why there is no page.

ghost use Rattle.std.specs.Prelude.{◌≡◌};
ghost use Rattle.tomex_animate.specs.declared.animation_error.AnimationError.TheVariants.{Memory};

use std::alloc::{AllocError, AllocFailed};

/// Why a run has no page of some cycles.
#[derive(Clone, Copy, Drop, PartialEq, Eq)]
pub enum AnimationError {
    /// The run ends before the first of them.
    PastEnd,
    /// Out of memory.
    Memory,
}

impl From<AllocError> for AnimationError {
    ghost from_gives = { λ _ e. e ≡ Memory };

    fn from(_error: AllocError) -> Self {
        AnimationError::Memory
    }
}

impl<T: Drop> From<AllocFailed<T>> for AnimationError {
    ghost from_gives = { λ _ e. e ≡ Memory };

    fn from(_error: AllocFailed<T>) -> Self {
        AnimationError::Memory
    }
}
