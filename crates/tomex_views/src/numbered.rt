//! The row that a view is of.

ghost use Rattle.std.specs.Prelude.{ℕ, List, IfErr, IfOk};
ghost use Rattle.tomex_views.specs.StudyViews.{IsSurveyText, IsWithoutSurvey};
ghost use Rattle.tomex_views.specs.declared.view_error.ViewError.{ViewError};

use crate::study_view::SurveyView;
use crate::view_error::ViewError;
use std::alloc::{Allocator, Global};
use tomex_find::{RowName, row_named};
use tomex_study::Study;

/// The view with its row by number. A row's choices are looked for once, before any row is evaluated.
pub(crate) fn numbered<'a, A: Allocator>(
    heap: Global,
    study: &Study<A>,
    view: SurveyView<'a>,
) -> Result<SurveyView<'a>, ViewError>
    ensures text { IfOk result (λ numbered. (text : List ℕ) → IsSurveyText numbered study.now text
        → IsSurveyText view.entry study.now text) }
    ensures without { IfOk result (λ numbered. (error : ViewError) → IsWithoutSurvey numbered study.now error
        → IsWithoutSurvey view.entry study.now error) }
    ensures refused { IfErr result (IsWithoutSurvey view.entry study.now) }
{
    match view {
        SurveyView::Worth(name, form) => {
            let row = row_named(heap, study, name)?;
            Ok(SurveyView::Worth(RowName::Number(row), form))
        }
        _ => Ok(view),
    }
}
