//! The text of the commands that print a view of a study.
ghost use Rattle.std.specs.Prelude.{◌≡◌, IfOk, IfErr};
ghost use Rattle.tomex_command.specs.ViewLines.{IsViewFailure, IsViewOf, form_of, page_view, plot_view};
ghost use Rattle.tomex_command.specs.ViewLines.{table_view};

use super::study::sources_in;
use crate::failure::Failure;
use crate::metered::Metered;
use std::alloc::{Allocator, Global};
use std::thread::Threads;
use tomex_command_line::{ExploreLine, PageLine};
use tomex_streams::{Files, Meter};
use tomex_views::{ChoicesView, Crew, Form, StudyView, SurveyView, answer_view};

/// How a table is printed: as CSV, or in columns.
pub fn form_of(csv: bool) -> Form
    ensures { result ≡ form_of csv }
{
    if csv { Form::Csv } else { Form::Table }
}

/// The view that `front` prints: the whole front, or its hull.
pub fn table_view(hull: bool) -> SurveyView<'static>
    ensures { result ≡ table_view hull }
{
    if hull {
        SurveyView::Hull
    } else {
        SurveyView::Table
    }
}

/// The view that `plot` prints: the front, or the front with all rows.
pub fn plot_view(all: bool) -> SurveyView<'static>
    ensures { result ≡ plot_view all }
{
    if all {
        SurveyView::RowsPicture
    } else {
        SurveyView::Picture
    }
}

/// The view that `page` prints, with or without what choices that the lists lack would bring. The page has the study's
/// name as it stands in the line.
pub fn page_view(line: PageLine<'_>) -> StudyView<'_>
    ensures { result ≡ page_view line.entry }
{
    let name = line.explore.study;
    if line.choices {
        StudyView::Choices(ChoicesView::Page(name))
    } else {
        StudyView::Survey(SurveyView::Page(name))
    }
}

/// The text of a view of a study.
pub fn text_of_view<
    R: Threads + Sync,
    F: Files,
    A: Allocator + Clone + Send + Sync + Drop,
    M: Meter + Sync,
>(
    rt: &R,
    alloc: A,
    heap: Global,
    line: ExploreLine<'_>,
    files: &F,
    meter: &M,
    view: StudyView<'_>,
) -> Result<Vec<u8, A>, Failure>
    ensures text { IfOk result
        (λ text. IsViewOf view.entry (F.file files.now) line.entry.study.now text.items) }
    ensures failure { IfErr result
        (λ failure. IsViewFailure view.entry (F.file files.now) line.entry.study.now failure) }
{
    let sources = sources_in(alloc.clone()?, heap, files, line.study)?;
    let (study, contents) = (sources.study.as_slice(), sources.files.as_slice());
    let gate = Metered::new(meter, u64::from(line.workers));
    let crew = Crew {
        workers: line.workers as usize,
        gate: &gate,
    };
    let text = answer_view(rt, alloc, heap, study, contents, crew, view);
    meter.clear();
    Ok(text?)
}
