//! Why a command was not done.
ghost use Rattle.std.specs.Prelude.{◌≡◌};
ghost use Rattle.tomex_command.specs.declared.failure.Failure.TheVariants as failures;
ghost use Rattle.tomex_command.specs.Statuses.{failure_of_animation, failure_of_answer, failure_of_cut};
ghost use Rattle.tomex_command.specs.Statuses.{failure_of_excerpt, failure_of_explanation, failure_of_functions};
ghost use Rattle.tomex_command.specs.Statuses.{failure_of_image, failure_of_parts, failure_of_picture};
ghost use Rattle.tomex_command.specs.Statuses.{failure_of_row, failure_of_search, failure_of_view};
ghost use Rattle.tomex_command.specs.Statuses.{status_of_failure};

use crate::run::RunRefusal;
use std::alloc::{AllocError, AllocFailed};
use tomex_animate::AnimationError;
use tomex_cut::CutError;
use tomex_document::StudyError;
use tomex_find::{FindError, RowError};
use tomex_functions::FunctionsError;
use tomex_image::ImageError;
use tomex_refusals::ExplainError;
use tomex_report::AnswerError;
use tomex_run_views::{ExcerptError, PictureError};
use tomex_samples::PartsError;
use tomex_sweep::SweepError;
use tomex_views::ViewError;

/// Why a command was not done. Reported after `tomex: ` on the standard error.
#[derive(Drop)]
pub enum Failure {
    /// Base and size are no window.
    BadWindow,
    /// The image is refused, or its run.
    Run(RunRefusal),
    /// The study is refused, or a program of it.
    Study(StudyError),
    /// The study has no configuration of that number, or with all of the choices.
    NoSuchRow,
    /// This many configurations of the study have all of the choices.
    SeveralRows(usize),
    /// The study has no program of that name.
    NoSuchProgram,
    /// The program's file has no symbols.
    NoSymbols,
    /// The program's run on the configuration ends before that cycle.
    CyclePastEnd,
    /// The program's run on the configuration ends before that step.
    NoSuchStep,
    /// The part of the run has no end.
    NoEnd,
    /// Code of the part was overwritten before it.
    CodeOverwritten,
    /// The part leaves no room for the instructions before it.
    NoRoom,
    /// The picture would have too many characters.
    PictureTooLarge,
    /// The table would have too many intervals.
    TableTooLarge,
    /// No configuration of the study has that choice. Carries it as written.
    NoSuchChoice(String),
    /// The words to be explained are those of no refusal.
    NoSuchRefusal,
    /// A file was not read. Carries its name as written.
    CannotRead(String),
    /// The standard output did not take the whole text.
    CannotWrite,
    /// The command prints an image, and the standard output is a terminal.
    OnTerminal,
    /// Memory was refused.
    Memory,
    /// The start of a thread was refused.
    Worker,
}

impl Failure {
    /// The exit status: 1 for refused input, 3 if memory, a thread, a file or a device was refused.
    pub fn status(&self) -> u8
        ensures { result ≡ status_of_failure self.now }
    {
        match self {
            Failure::BadWindow => 1,
            Failure::Run(RunRefusal::Memory) => 3,
            Failure::Run(_) => 1,
            Failure::Study(StudyError::Memory) => 3,
            Failure::Study(_) => 1,
            Failure::NoSuchRow | Failure::SeveralRows(_) => 1,
            Failure::NoSuchProgram | Failure::NoSymbols => 1,
            Failure::CyclePastEnd => 1,
            Failure::NoSuchStep | Failure::NoEnd | Failure::CodeOverwritten | Failure::NoRoom => 1,
            Failure::PictureTooLarge | Failure::TableTooLarge => 1,
            Failure::NoSuchChoice(_) | Failure::NoSuchRefusal => 1,
            Failure::CannotRead(_) | Failure::CannotWrite | Failure::OnTerminal => 3,
            Failure::Memory | Failure::Worker => 3,
        }
    }
}

impl From<AllocError> for Failure {
    ghost from_gives = { λ _ failure. failure ≡ failures.Memory };

    fn from(_error: AllocError) -> Failure {
        Failure::Memory
    }
}

impl<T: Drop> From<AllocFailed<T>> for Failure {
    ghost from_gives = { λ _ failure. failure ≡ failures.Memory };

    fn from(_error: AllocFailed<T>) -> Failure {
        Failure::Memory
    }
}

impl From<ImageError> for Failure {
    ghost from_gives = { λ error failure. failure ≡ failure_of_image error };

    fn from(error: ImageError) -> Failure {
        match error {
            ImageError::Memory => Failure::Memory,
            other => Failure::Run(RunRefusal::Image(other)),
        }
    }
}

impl From<CutError> for Failure {
    ghost from_gives = { λ error failure. failure ≡ failure_of_cut error };

    fn from(error: CutError) -> Failure {
        match error {
            CutError::Fault(fault) => Failure::Run(RunRefusal::Fault(fault)),
            CutError::NoSuchStep => Failure::NoSuchStep,
            CutError::NoEnd => Failure::NoEnd,
            CutError::Overwritten => Failure::CodeOverwritten,
            CutError::NoRoom => Failure::NoRoom,
            CutError::Memory => Failure::Memory,
        }
    }
}

impl From<PartsError> for Failure {
    ghost from_gives = { λ error failure. failure ≡ failure_of_parts error };

    fn from(error: PartsError) -> Failure {
        match error {
            PartsError::Fault(fault) => Failure::Run(RunRefusal::Fault(fault)),
            PartsError::TooLong => Failure::Run(RunRefusal::TooLong),
            PartsError::NoSuchStep => Failure::NoSuchStep,
            PartsError::NoEnd => Failure::NoEnd,
            PartsError::Memory => Failure::Memory,
        }
    }
}

impl From<RunRefusal> for Failure {
    ghost from_gives = { λ refusal failure. failure ≡ failures.Run refusal };

    fn from(refusal: RunRefusal) -> Failure {
        Failure::Run(refusal)
    }
}

impl From<StudyError> for Failure {
    ghost from_gives = { λ error failure. failure ≡ failures.Study error };

    fn from(error: StudyError) -> Failure {
        Failure::Study(error)
    }
}

impl From<AnswerError> for Failure {
    ghost from_gives = { λ error failure. failure ≡ failure_of_answer error };

    fn from(error: AnswerError) -> Failure {
        match error {
            AnswerError::Study(error) => Failure::Study(error),
            AnswerError::Sweep(SweepError::Memory) => Failure::Memory,
            AnswerError::Sweep(SweepError::Worker) => Failure::Worker,
        }
    }
}

impl From<ViewError> for Failure {
    ghost from_gives = { λ error failure. failure ≡ failure_of_view error };

    fn from(error: ViewError) -> Failure {
        match error {
            ViewError::Study(error) => Failure::Study(error),
            ViewError::NoSuchRow => Failure::NoSuchRow,
            ViewError::NoSuchChoice(choice) => Failure::NoSuchChoice(choice),
            ViewError::SeveralRows(rows) => Failure::SeveralRows(rows),
            ViewError::NoSuchProgram => Failure::NoSuchProgram,
            ViewError::TooLarge => Failure::TableTooLarge,
            ViewError::Memory => Failure::Memory,
        }
    }
}

impl From<PictureError> for Failure {
    ghost from_gives = { λ error failure. failure ≡ failure_of_picture error };

    fn from(error: PictureError) -> Failure {
        match error {
            PictureError::NoSuchStep => Failure::NoSuchStep,
            PictureError::TooLarge => Failure::PictureTooLarge,
            PictureError::Memory => Failure::Memory,
        }
    }
}

impl From<ExcerptError> for Failure {
    ghost from_gives = { λ error failure. failure ≡ failure_of_excerpt error };

    fn from(error: ExcerptError) -> Failure {
        match error {
            ExcerptError::NoSuchStep => Failure::NoSuchStep,
            ExcerptError::Memory => Failure::Memory,
        }
    }
}

impl From<FunctionsError> for Failure {
    ghost from_gives = { λ error failure. failure ≡ failure_of_functions error };

    fn from(error: FunctionsError) -> Failure {
        match error {
            FunctionsError::NoSymbols => Failure::NoSymbols,
            FunctionsError::Memory => Failure::Memory,
        }
    }
}

impl From<AnimationError> for Failure {
    ghost from_gives = { λ error failure. failure ≡ failure_of_animation error };

    fn from(error: AnimationError) -> Failure {
        match error {
            AnimationError::PastEnd => Failure::CyclePastEnd,
            AnimationError::Memory => Failure::Memory,
        }
    }
}

impl From<FindError> for Failure {
    ghost from_gives = { λ error failure. failure ≡ failure_of_search error };

    fn from(error: FindError) -> Failure {
        match error {
            FindError::NoSuchChoice(choice) => Failure::NoSuchChoice(choice),
            FindError::NoSuchRow => Failure::NoSuchRow,
            FindError::Memory => Failure::Memory,
        }
    }
}

impl From<RowError> for Failure {
    ghost from_gives = { λ error failure. failure ≡ failure_of_row error };

    fn from(error: RowError) -> Failure {
        match error {
            RowError::NoSuchChoice(choice) => Failure::NoSuchChoice(choice),
            RowError::NoSuchRow => Failure::NoSuchRow,
            RowError::SeveralRows(rows) => Failure::SeveralRows(rows),
            RowError::Memory => Failure::Memory,
        }
    }
}

impl From<ExplainError> for Failure {
    ghost from_gives = { λ error failure. failure ≡ failure_of_explanation error };

    fn from(error: ExplainError) -> Failure {
        match error {
            ExplainError::NoSuchRefusal => Failure::NoSuchRefusal,
            ExplainError::Memory => Failure::Memory,
        }
    }
}
