//! Why there is no report.

ghost use Rattle.std.specs.Prelude.{◌≡◌};
ghost use Rattle.tomex_report.specs.declared.answer_error.AnswerError.TheVariants.{Study, Sweep};
ghost use Rattle.tomex_sweep.specs.declared.outcome.SweepError.TheVariants.{Memory};

use std::alloc::AllocError;
use thiserror::Error;
use tomex_document::StudyError;
use tomex_sweep::SweepError;

/// Why the bytes of a study have no report.
#[derive(Debug, Drop, Error)]
pub enum AnswerError {
    /// The bytes and the files are refused.
    #[error(transparent)]
    Study(StudyError),
    /// They are a study, and memory or the start of a thread was refused.
    #[error(transparent)]
    Sweep(SweepError),
}

impl From<StudyError> for AnswerError {
    ghost from_gives = { λ error e. e ≡ Study error };

    fn from(error: StudyError) -> Self {
        AnswerError::Study(error)
    }
}

impl From<SweepError> for AnswerError {
    ghost from_gives = { λ error e. e ≡ Sweep error };

    fn from(error: SweepError) -> Self {
        AnswerError::Sweep(error)
    }
}

/// Errors after the study was read.
impl From<AllocError> for AnswerError {
    ghost from_gives = { λ _ e. e ≡ Sweep Memory };

    fn from(_error: AllocError) -> Self {
        AnswerError::Sweep(SweepError::Memory)
    }
}
