//! Why a study's bytes, or the files that it names, are refused.

ghost use Rattle.std.specs.Prelude.{◌≡◌};
ghost use Rattle.tomex_document.specs.Refusals.{study_error_of};
ghost use Rattle.tomex_document.specs.declared.error.StudyError.TheVariants.{Memory};

use std::alloc::{AllocError, AllocFailed};
use thiserror::Error;
use tomex_image::ImageError;
use tomex_rvexec::Fault;
use tomex_values::{DocumentError, Key, Place};

/// The first test that a study fails, or out of memory. The tests up to `TooMany` are of the
/// document only, those from `Files` to `TooLong` of its programs' files; the last three name the
/// program.
#[derive(Debug, Drop, Error)]
pub enum StudyError {
    /// The bytes aren't a TOML document.
    #[error("study: not TOML")]
    Syntax,
    /// The place has a key that no study has there.
    #[error("study: {0}: unknown key")]
    UnknownKey(Place),
    /// The place is missing a key that every study has there.
    #[error("study: {0}: {1} missing")]
    MissingKey(Place, Key),
    /// The value of the key is of another kind than a study has there.
    #[error("study: {0}: {1} of wrong kind")]
    Kind(Place, Key),
    /// The value of the key has its kind, but is outside its limits.
    #[error("study: {0}: {1} out of range")]
    Range(Place, Key),
    /// The axes span more than 16,384 configurations.
    #[error("study: too many configurations")]
    TooMany,
    /// There are more or fewer files than programs.
    #[error("study: wrong number of files")]
    Files,
    /// The file of the named program can't be loaded into its window. Never `ImageError::Memory`.
    #[error("program {0}: image: {1}")]
    Image(String, ImageError),
    /// The named program faults within its limit.
    #[error("program {0}: fault: {1}")]
    Fault(String, Fault),
    /// The named program doesn't end within its limit.
    #[error("program {0}: too long")]
    TooLong(String),
    /// Out of memory. This says nothing about the study.
    #[error("out of memory")]
    Memory,
}

impl From<DocumentError> for StudyError {
    ghost from_gives = { λ fault e. e ≡ study_error_of fault };

    fn from(error: DocumentError) -> Self {
        match error {
            DocumentError::Syntax => StudyError::Syntax,
            DocumentError::UnknownKey(place) => StudyError::UnknownKey(place),
            DocumentError::MissingKey(place, key) => StudyError::MissingKey(place, key),
            DocumentError::Kind(place, key) => StudyError::Kind(place, key),
            DocumentError::Range(place, key) => StudyError::Range(place, key),
            DocumentError::TooMany => StudyError::TooMany,
            DocumentError::Memory => StudyError::Memory,
        }
    }
}

impl From<AllocError> for StudyError {
    ghost from_gives = { λ _ e. e ≡ Memory };

    fn from(_error: AllocError) -> Self {
        StudyError::Memory
    }
}

impl<T: Drop> From<AllocFailed<T>> for StudyError {
    ghost from_gives = { λ _ e. e ≡ Memory };

    fn from(_error: AllocFailed<T>) -> Self {
        StudyError::Memory
    }
}
