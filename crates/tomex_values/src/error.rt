//! Why the bytes of a study aren't a valid document.

ghost use Rattle.std.specs.Prelude.{◌≡◌};
ghost use Rattle.tomex_values.specs.declared.error.DocumentError.TheVariants.{Memory};

use crate::place::{Key, Place};
use std::alloc::{AllocError, AllocFailed};

/// The first test that a study's document fails.
#[derive(Drop)]
pub enum DocumentError {
    /// The bytes aren't a TOML document.
    Syntax,
    /// The place has a key that no study has there.
    UnknownKey(Place),
    /// The place is missing a key that every study has there.
    MissingKey(Place, Key),
    /// The value of the key is of another kind than a study has there.
    Kind(Place, Key),
    /// The value of the key has its kind, but is outside its limits.
    Range(Place, Key),
    /// The axes span more than 16,384 configurations.
    TooMany,
    /// Out of memory. This says nothing about the study.
    Memory,
}

impl From<AllocError> for DocumentError {
    ghost from_gives = { λ _ e. e ≡ Memory };

    fn from(_error: AllocError) -> Self {
        DocumentError::Memory
    }
}

impl<T: Drop> From<AllocFailed<T>> for DocumentError {
    ghost from_gives = { λ _ e. e ≡ Memory };

    fn from(_error: AllocFailed<T>) -> Self {
        DocumentError::Memory
    }
}
