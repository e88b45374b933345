//! Why there is no text by function.

ghost use Rattle.std.specs.Prelude.{◌≡◌};
ghost use Rattle.tomex_functions.specs.declared.functions_error.FunctionsError.TheVariants.{Memory};

use std::alloc::{AllocError, AllocFailed};

/// Why the functions of a run aren't reported.
#[derive(Clone, Copy, Drop, PartialEq, Eq)]
pub enum FunctionsError {
    /// The program's file has no symbol that names code.
    NoSymbols,
    /// Memory was refused.
    Memory,
}

impl From<AllocError> for FunctionsError {
    ghost from_gives = { λ _ e. e ≡ Memory };

    fn from(_error: AllocError) -> Self {
        FunctionsError::Memory
    }
}

impl<T: Drop> From<AllocFailed<T>> for FunctionsError {
    ghost from_gives = { λ _ e. e ≡ Memory };

    fn from(_error: AllocFailed<T>) -> Self {
        FunctionsError::Memory
    }
}
