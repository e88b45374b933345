//! What of a study a view is made of.

ghost use Rattle.std.specs.Prelude.{◌≡◌, ℕ, false, List};
ghost use Rattle.tomex_views.specs.StudyViews.{IsSurveyText, IsWithoutSurvey, lacks_program, needed};
ghost use Rattle.tomex_views.specs.declared.view_error.ViewError.{ViewError};

use crate::study_view::SurveyView;
use std::alloc::Allocator;
use tomex_compare::only_the_two_builds_matter;
use tomex_study::Study;

/// The study that a view is made of. Two builds are compared by themselves, since no other program makes a difference:
/// none is evaluated for nothing.
pub(crate) fn needed<A: Allocator>(study: Study<A>, view: SurveyView<'_>) -> Study<A>
    requires { lacks_program view study ≡ false }
    ensures needed { result ≡ needed view.entry study }
    ensures text { (text : List ℕ) → IsSurveyText view.entry result text → IsSurveyText view.entry study text }
    ensures refused { (error : ViewError) → IsWithoutSurvey view.entry result error
        → IsWithoutSurvey view.entry study error }
{
    only_the_two_builds_matter();
    study.keeps_limits();
    let needed = match view {
        SurveyView::Compare(old, new, _) => study.with_only(old, new),
        _ => study,
    };
    needed.keeps_limits();
    needed
}
