//! Why a text is refused, and where.

ghost use Rattle.std.specs.Prelude.{◌≡◌};
ghost use Rattle.tomex_asm.specs.declared.refusal.AsmError.TheVariants.{Memory};

use std::alloc::{AllocError, AllocFailed};
use tomex_asm_tokens::Cause;

/// Why a text is refused, and where.
#[derive(Clone, Copy)]
pub struct Refusal {
    /// The number of the line, from 1.
    pub line: usize,
    /// How many bytes of the line are before the refusal; the column is one more.
    pub at: usize,
    pub cause: Cause,
}

/// Why there is no file.
#[derive(Drop)]
pub enum AsmError {
    Memory,
    Refused(Refusal),
}

impl From<AllocError> for AsmError {
    ghost from_gives = { λ _ e. e ≡ Memory };

    fn from(_error: AllocError) -> AsmError {
        AsmError::Memory
    }
}

impl<T: Drop> From<AllocFailed<T>> for AsmError {
    ghost from_gives = { λ _ e. e ≡ Memory };

    fn from(_error: AllocFailed<T>) -> AsmError {
        AsmError::Memory
    }
}
