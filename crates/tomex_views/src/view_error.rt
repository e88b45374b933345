//! Why a study has no text in a view.

ghost use Rattle.std.specs.Prelude.{◌≡◌};
ghost use Rattle.tomex_views.specs.StudyViews.{error_of_prices, error_of_row};
ghost use Rattle.tomex_views.specs.declared.view_error.ViewError.TheVariants.{Memory, Study};

use std::alloc::AllocError;
use tomex_document::StudyError;
use tomex_find::RowError;
use tomex_prices::PricesError;

/// Why a study has no text in a view. It has no text of its own: whoever reports it writes that.
#[derive(Drop)]
pub enum ViewError {
    /// The bytes and the files are refused.
    Study(StudyError),
    /// They are a study without a configuration of this number, or with all of these choices.
    NoSuchRow,
    /// They are a study none of whose configurations has this choice. Carries it as written.
    NoSuchChoice(String),
    /// They are a study with this many configurations that have all of the choices.
    SeveralRows(usize),
    /// They are a study without a program of one of the names.
    NoSuchProgram,
    /// They are a study whose table of prices would have too many intervals.
    TooLarge,
    /// They are a study, and out of memory.
    Memory,
}

impl From<StudyError> for ViewError {
    ghost from_gives = { λ error e. e ≡ Study error };

    fn from(error: StudyError) -> Self {
        ViewError::Study(error)
    }
}

impl From<RowError> for ViewError {
    ghost from_gives = { λ error e. e ≡ error_of_row error };

    fn from(error: RowError) -> Self {
        match error {
            RowError::NoSuchChoice(choice) => ViewError::NoSuchChoice(choice),
            RowError::NoSuchRow => ViewError::NoSuchRow,
            RowError::SeveralRows(rows) => ViewError::SeveralRows(rows),
            RowError::Memory => ViewError::Memory,
        }
    }
}

impl From<PricesError> for ViewError {
    ghost from_gives = { λ error e. e ≡ error_of_prices error };

    fn from(error: PricesError) -> Self {
        match error {
            PricesError::TooLarge => ViewError::TooLarge,
            PricesError::Memory => ViewError::Memory,
        }
    }
}

/// Errors after the study was read.
impl From<AllocError> for ViewError {
    ghost from_gives = { λ _ e. e ≡ Memory };

    fn from(_error: AllocError) -> Self {
        ViewError::Memory
    }
}
