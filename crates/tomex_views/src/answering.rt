//! From the bytes of a study to the text of a view.

ghost use Rattle.std.specs.Prelude.{◌≤◌, map, IfErr, IfOk};
ghost use Rattle.tomex_views.specs.StudyViews.{IsSurveyText, IsTextFrom, IsTextOf, IsViewRefusal, IsWithoutSurvey};
ghost use Rattle.tomex_views.specs.StudyViews.{IsWithoutText};

use crate::crew::Crew;
use crate::needs::needed;
use crate::numbered::numbered;
use crate::study_view::{ChoicesView, StudyView, SurveyView};
use crate::texts::{lacks_program, text_of_choices, text_of_survey};
use crate::view_error::ViewError;
use std::alloc::{AllocError, Allocator, Global};
use std::thread::Threads;
use tomex_choices::weigh_choices;
use tomex_document::study_in;
use tomex_study::{Gate, Study};
use tomex_survey::survey;

/// A view of a study's front or of all its rows. A missing row or program is found before any row is evaluated, and
/// programs that make no difference aren't evaluated.
fn survey_text<R: Threads + Sync, A: Allocator + Clone + Send + Sync + Drop, G: Gate + Sync>(
    rt: &R,
    alloc: A,
    heap: Global,
    study: Study<A>,
    crew: Crew<'_, G>,
    view: SurveyView<'_>,
) -> Result<Vec<u8, A>, ViewError>
    requires some_workers { 1 ≤ crew.workers }
    requires few_workers { crew.workers ≤ 32 }
    ensures text { IfOk result (λ text. IsSurveyText view.entry study text.items) }
    ensures refused { IfErr result (IsWithoutSurvey view.entry study) }
{
    let numbered = numbered(heap, &study, view)?;
    if lacks_program(&study, numbered) {
        return Err(ViewError::NoSuchProgram);
    }
    let study = needed(study, numbered);
    let surveyed = survey(rt, alloc.clone()?, &study, crew.workers, crew.gate)?;
    text_of_survey(alloc, heap, &surveyed, numbered)
}

/// A view of a study with what its lists lack.
fn choices_text<R: Threads + Sync, A: Allocator + Clone + Send + Sync + Drop, G: Gate + Sync>(
    rt: &R,
    alloc: A,
    heap: Global,
    study: &Study<A>,
    crew: Crew<'_, G>,
    view: ChoicesView<'_>,
) -> Result<Vec<u8, A>, AllocError>
    requires some_workers { 1 ≤ crew.workers }
    requires few_workers { crew.workers ≤ 32 }
    ensures { IfOk result (λ text. IsTextOf (StudyView.Choices view.entry) study.now text.items) }
{
    let weighed = weigh_choices(rt, alloc.clone()?, study, crew.workers, crew.gate)?;
    text_of_choices(alloc, heap, &weighed, view)
}

/// A view of a study.
fn text_of<R: Threads + Sync, A: Allocator + Clone + Send + Sync + Drop, G: Gate + Sync>(
    rt: &R,
    alloc: A,
    heap: Global,
    study: Study<A>,
    crew: Crew<'_, G>,
    view: StudyView<'_>,
) -> Result<Vec<u8, A>, ViewError>
    requires some_workers { 1 ≤ crew.workers }
    requires few_workers { crew.workers ≤ 32 }
    ensures text { IfOk result (λ text. IsTextOf view.entry study text.items) }
    ensures refused { IfErr result (IsWithoutText view.entry study) }
{
    match view {
        StudyView::Survey(view) => survey_text(rt, alloc, heap, study, crew, view),
        StudyView::Choices(view) => Ok(choices_text(rt, alloc, heap, &study, crew, view)?),
    }
}

/// The text of a view of the study in the bytes and the files. The number of workers doesn't change it.
///
/// A study is refused as `read_study` refuses it; a missing row or program is found before any row is evaluated.
/// `toml` and `csv` allocate from `heap`, and so do small temporary texts.
pub fn answer_view<R: Threads + Sync, A: Allocator + Clone + Send + Sync + Drop, G: Gate + Sync>(
    rt: &R,
    alloc: A,
    heap: Global,
    study: &[u8],
    files: &[Vec<u8, A>],
    crew: Crew<'_, G>,
    view: StudyView<'_>,
) -> Result<Vec<u8, A>, ViewError>
    requires some_workers { 1 ≤ crew.workers }
    requires few_workers { crew.workers ≤ 32 }
    ensures text { IfOk result
        (λ text. IsTextFrom view.entry study.now (map (λ f. f.items) files.now) text.items) }
    ensures refused { IfErr result
        (λ e. IsViewRefusal view.entry study.now (map (λ f. f.items) files.now) e) }
{
    let study = study_in(&alloc, heap, study, files)?;
    text_of(rt, alloc, heap, study, crew, view)
}
