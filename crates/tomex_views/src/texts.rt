//! The texts of a study's views.

ghost use Rattle.std.specs.Prelude.{◌≡◌, ◌↔◌, ◌<◌, false, true, length, option_map, IfErr, IfOk, IfSome, IsErrOf};
ghost use Rattle.tomex_choices_table.specs.ChoicesTable.{choices_table_of};
ghost use Rattle.tomex_page.specs.Page.{page_of};
ghost use Rattle.tomex_survey.specs.Floors.{floors_of};
ghost use Rattle.tomex_prices.specs.PricesTable.{is_too_large};
ghost use Rattle.tomex_views.specs.StudyViews.{choices_text, compared_at, lacks_program, place_of, prices_of};
ghost use Rattle.tomex_views.specs.StudyViews.{weights_of, worth_at};
ghost use Rattle.tomex_views.specs.declared.study_view.Form.{Form};
ghost use Rattle.tomex_views.specs.StudyViews.{IsSurveyText, IsWithoutSurvey};

use crate::study_view::{ChoicesView, Form, SurveyView};
use crate::view_error::ViewError;
use std::alloc::{AllocError, Allocator, Global};
use tomex_choices::WeighedChoices;
use tomex_choices_table::{choices_csv, choices_table};
use tomex_compare::{compare_csv, compare_table};
use tomex_find::{RowName, row_named};
use tomex_front_views::{front_picture, front_table, hull_table, rows_picture};
use tomex_page::study_page;
use tomex_prices::{PricesError, prices_csv, prices_table};
use tomex_study::{ListReport, Study, Surveyed};
use tomex_survey::{all_floored, floors_of};
use tomex_texts::rows_report;
use tomex_weights::{weights_csv, weights_table};
use tomex_worth::{worth_csv, worth_table};

/// The place of the first program of that name.
fn place_of<A: Allocator>(study: &Study<A>, name: &str) -> Option<usize>
    ensures place { result ≡ place_of name.now study.now }
    ensures inside { IfSome result (λ place. place < length study.now.programs) }
{
    study
        .programs()
        .iter()
        .position(|program| program.name() == name)
}

/// What is printed of two builds, the programs at these places.
fn compared_at<A: Allocator>(
    alloc: A,
    heap: Global,
    surveyed: &Surveyed<'_, A>,
    old: usize,
    new: usize,
    form: Form,
) -> Result<Vec<u8, A>, AllocError>
    requires old { old < length surveyed.now.programs }
    requires new { new < length surveyed.now.programs }
    ensures { IfOk result (λ text. text.items ≡ compared_at form surveyed.now old new) }
{
    match form {
        Form::Table => compare_table(alloc, heap, surveyed, old, new),
        Form::Csv => compare_csv(alloc, heap, surveyed, old, new),
    }
}

/// What is printed of two builds, of these names.
fn compared<A: Allocator>(
    alloc: A,
    heap: Global,
    surveyed: &Surveyed<'_, A>,
    old: &str,
    new: &str,
    form: Form,
) -> Result<Vec<u8, A>, ViewError>
    ensures text { IfOk result
        (λ text. IsSurveyText (SurveyView.Compare old.entry new.entry form) surveyed.now text.items) }
    ensures refused { IfErr result (IsWithoutSurvey (SurveyView.Compare old.entry new.entry form) surveyed.now) }
{
    let study = surveyed.study();
    let old = place_of(study, old).ok_or(ViewError::NoSuchProgram)?;
    let new = place_of(study, new).ok_or(ViewError::NoSuchProgram)?;
    Ok(compared_at(alloc, heap, surveyed, old, new, form)?)
}

/// The gains from changes on the configuration of this number.
fn worth_at<A: Allocator>(
    alloc: A,
    heap: Global,
    surveyed: &Surveyed<'_, A>,
    row: usize,
    form: Form,
) -> Result<Vec<u8, A>, AllocError>
    requires { row < length surveyed.now.rows }
    ensures { IfOk result (λ text. text.items ≡ worth_at form surveyed.now row) }
{
    match form {
        Form::Table => worth_table(alloc, heap, surveyed, row),
        Form::Csv => worth_csv(alloc, heap, surveyed, row),
    }
}

/// The gains from changes on the configuration of this name.
fn worth<A: Allocator>(
    alloc: A,
    heap: Global,
    surveyed: &Surveyed<'_, A>,
    name: RowName<'_>,
    form: Form,
) -> Result<Vec<u8, A>, ViewError>
    ensures text { IfOk result (λ text. IsSurveyText (SurveyView.Worth name.entry form) surveyed.now text.items) }
    ensures refused { IfErr result (IsWithoutSurvey (SurveyView.Worth name.entry form) surveyed.now) }
{
    let row = row_named(heap, surveyed.study(), name)?;
    Ok(worth_at(alloc, heap, surveyed, row, form)?)
}

/// The prices of a study.
fn prices<A: Allocator>(
    alloc: A,
    heap: Global,
    surveyed: &Surveyed<'_, A>,
    form: Form,
) -> Result<Vec<u8, A>, PricesError>
    ensures text { IfOk result (λ text. text.items ≡ prices_of form surveyed.now) }
    ensures large { IsErrOf result PricesError.TooLarge ↔ (is_too_large surveyed.now ≡ true) }
{
    match form {
        Form::Table => prices_table(alloc, heap, surveyed),
        Form::Csv => prices_csv(alloc, heap, surveyed),
    }
}

/// The weights of its programs.
fn weights<A: Allocator>(
    alloc: A,
    heap: Global,
    surveyed: &Surveyed<'_, A>,
    form: Form,
) -> Result<Vec<u8, A>, AllocError>
    ensures { IfOk result (λ text. text.items ≡ weights_of form surveyed.now) }
{
    match form {
        Form::Table => weights_table(alloc, heap, surveyed),
        Form::Csv => weights_csv(alloc, heap, surveyed),
    }
}

/// The report of a study of this name as a page; with `choices`, what was found out of its lists is on it.
fn page<A: Allocator + Clone>(
    alloc: A,
    heap: Global,
    surveyed: &Surveyed<'_, A>,
    name: &str,
    choices: Option<&[ListReport]>,
) -> Result<Vec<u8, A>, AllocError>
    ensures { IfOk result (λ text. text.items
        ≡ page_of (option_map (λ l. l.now) choices.entry) (floors_of surveyed.now) name.now surveyed.now) }
{
    let mut floored = all_floored(alloc.clone()?, surveyed.study())?;
    let floors = floors_of(&alloc, surveyed, &mut floored)?;
    study_page(alloc, heap, name, surveyed, floors, &mut floored, choices)
}

/// The table of what was found out of a study's lists, with its floors.
fn table_of_choices<A: Allocator + Clone>(
    alloc: A,
    heap: Global,
    surveyed: &Surveyed<'_, A>,
    lists: &[ListReport],
) -> Result<Vec<u8, A>, AllocError>
    ensures { IfOk result (λ text. text.items ≡ choices_table_of lists.now (floors_of surveyed.now)) }
{
    let mut floored = all_floored(alloc.clone()?, surveyed.study())?;
    let floors = floors_of(&alloc, surveyed, &mut floored)?;
    choices_table(alloc, heap, lists, floors)
}

/// A view of a study's front or of all its rows.
pub(crate) fn text_of_survey<A: Allocator + Clone>(
    alloc: A,
    heap: Global,
    surveyed: &Surveyed<'_, A>,
    view: SurveyView<'_>,
) -> Result<Vec<u8, A>, ViewError>
    ensures text { IfOk result (λ text. IsSurveyText view.entry surveyed.now text.items) }
    ensures refused { IfErr result (IsWithoutSurvey view.entry surveyed.now) }
    ensures large { (form : Form) → view.entry ≡ SurveyView.Prices form → is_too_large surveyed.now ≡ true
        → IsErrOf result ViewError.TooLarge }
{
    match view {
        SurveyView::Table => Ok(front_table(alloc, heap, surveyed)?),
        SurveyView::Hull => Ok(hull_table(alloc, heap, surveyed)?),
        SurveyView::Picture => Ok(front_picture(alloc, heap, surveyed)?),
        SurveyView::RowsPicture => Ok(rows_picture(alloc, heap, surveyed)?),
        SurveyView::Rows => Ok(rows_report(alloc, heap, surveyed)?),
        SurveyView::Worth(name, form) => worth(alloc, heap, surveyed, name, form),
        SurveyView::Prices(form) => Ok(prices(alloc, heap, surveyed, form)?),
        SurveyView::Weights(form) => Ok(weights(alloc, heap, surveyed, form)?),
        SurveyView::Compare(old, new, form) => compared(alloc, heap, surveyed, old, new, form),
        SurveyView::Page(name) => Ok(page(alloc, heap, surveyed, name, None)?),
    }
}

/// A view of a study with what its lists lack.
pub(crate) fn text_of_choices<A: Allocator + Clone>(
    alloc: A,
    heap: Global,
    weighed: &WeighedChoices<'_, A>,
    view: ChoicesView<'_>,
) -> Result<Vec<u8, A>, AllocError>
    ensures { IfOk result (λ text. text.items ≡ choices_text view.entry weighed.now) }
{
    let lists = weighed.reports(heap)?;
    let (surveyed, lists) = (weighed.surveyed(), lists.as_slice());
    match view {
        ChoicesView::Lists(Form::Table) => table_of_choices(alloc, heap, surveyed, lists),
        ChoicesView::Lists(Form::Csv) => choices_csv(alloc, heap, lists),
        ChoicesView::Page(name) => page(alloc, heap, surveyed, name, Some(lists)),
    }
}

/// True if the view is of a program that the study doesn't have.
pub(crate) fn lacks_program<A: Allocator>(study: &Study<A>, view: SurveyView<'_>) -> bool
    ensures { result ≡ lacks_program view.entry study.now }
{
    match view {
        SurveyView::Compare(old, new, _) => {
            !(place_of(study, old).is_some() && place_of(study, new).is_some())
        }
        _ => false,
    }
}
