//! A study's weights as CSV.

ghost use Rattle.std.specs.Prelude.{◌≡◌, ◌<◌, ◌++◌, length, All, IfOk, OnOk};
ghost use Rattle.std.specs.List.{flat_map, Contains};
ghost use Rattle.tomex_layout.specs.Csv.{record_text};
ghost use Rattle.tomex_study.specs.StudyFront.{all_rows};
ghost use Rattle.tomex_weights.specs.Listed.{all_spans_of, IsOfProgram};
ghost use Rattle.tomex_weights.specs.Spans.{span_of};
ghost use Rattle.tomex_weights.specs.WeightsCsv.{names, percent_on_front, row_fields, row_records, span_fields};
ghost use Rattle.tomex_weights.specs.WeightsCsv.{span_record, weights_csv_of};

use crate::columns::{WeightColumn, weight_columns};
use crate::listed::{has_weights, listed_rows};
use crate::percents::percent;
use crate::table::{name_at, span_at, weight_at};
use crate::texts::{push_first, push_last};
use std::alloc::{AllocError, Allocator, Global};
use tomex_layout::{CsvText, Fields};
use tomex_pareto::{FrontRow, ValueSpan, is_on};
use tomex_study::Surveyed;

/// The percentage by which all weights may be wrong at once, if the row is on the front.
fn percent_on_front<A: Allocator>(surveyed: &Surveyed<'_, A>, row: FrontRow) -> Option<u64>
    requires { Contains (all_rows surveyed.now) row }
    ensures { result ≡ percent_on_front surveyed.now row }
{
    surveyed.keeps_limits();
    if is_on(surveyed.front(), row.row) {
        Some(percent(surveyed, row))
    } else {
        None
    }
}

/// Adds what the records of a row begin with.
fn push_row(fields: &mut Fields, row: FrontRow, percent: Option<u64>) -> Result<(), AllocError>
    ensures { OnOk result (fields.new ≡ fields.old ++ row_fields row percent) }
{
    fields.push_decimal(row.row as u64)?;
    fields.push_decimal(row.cost)?;
    fields.push_decimal(row.cycles)?;
    fields.push_flag(percent.is_some())?;
    match percent {
        Some(percent) => fields.push_percent(percent),
        None => fields.push(""),
    }
}

/// Adds the program at a place, its stated weight, and the ends of a span of its weights.
fn push_span<A: Allocator>(
    fields: &mut Fields,
    heap: Global,
    surveyed: &Surveyed<'_, A>,
    place: usize,
    span: ValueSpan,
) -> Result<(), AllocError>
    requires { place < length surveyed.now.programs }
    ensures { OnOk result (fields.new ≡ fields.old ++ span_fields surveyed.now place span) }
{
    let (mut first, mut last) = (String::new(heap), String::new(heap));
    push_first(&mut first, span)?;
    push_last(&mut last, span)?;
    fields.push(name_at(surveyed, place))?;
    fields.push_decimal(u64::from(weight_at(surveyed, place)))?;
    fields.push(first.as_str())?;
    fields.push(last.as_str())
}

/// The text with the record of a row and a program, if there is a weight. `percent` is the row's.
#[tactic(auto, unfolding(crate::specs::WeightsCsv::span_record))]
fn with_span<A: Allocator>(
    text: CsvText<A>,
    heap: Global,
    surveyed: &Surveyed<'_, A>,
    spans: &WeightColumn,
    row: FrontRow,
    percent: Option<u64>,
) -> Result<CsvText<A>, AllocError>
    requires spans { IsOfProgram surveyed.now spans.now }
    requires row { Contains (all_rows surveyed.now) row }
    requires percent { percent ≡ percent_on_front surveyed.now row }
    ensures { IfOk result (λ made. made ≡ text ++ span_record surveyed.now row spans.now.place) }
{
    let span = span_at(surveyed, spans, row);
    if !has_weights(span) {
        return Ok(text);
    }
    let mut fields = Fields::new(heap);
    push_row(&mut fields, row, percent)?;
    push_span(&mut fields, heap, surveyed, spans.place, span)?;
    text.with(&fields)
}

/// The text with the records of a row. `all` are the study's spans.
fn with_row<A: Allocator>(
    text: CsvText<A>,
    heap: Global,
    surveyed: &Surveyed<'_, A>,
    all: &[WeightColumn],
    row: FrontRow,
) -> Result<CsvText<A>, AllocError>
    requires all { all.now ≡ all_spans_of surveyed.now }
    requires of_program { All (IsOfProgram surveyed.now) all.now }
    requires row { Contains (all_rows surveyed.now) row }
    ensures { IfOk result (λ made. made ≡ text ++ row_records surveyed.now row) }
{
    let percent = percent_on_front(surveyed, row);
    let mut made = text;
    for spans in all {
        made = with_span(made, heap, surveyed, spans, row, percent)?;
    }
    Ok(made)
}

/// The text with the records of these rows.
fn with_rows<A: Allocator>(
    text: CsvText<A>,
    heap: Global,
    surveyed: &Surveyed<'_, A>,
    all: &[WeightColumn],
    rows: &[FrontRow],
) -> Result<CsvText<A>, AllocError>
    requires all { all.now ≡ all_spans_of surveyed.now }
    requires of_program { All (IsOfProgram surveyed.now) all.now }
    requires rows { All (Contains (all_rows surveyed.now)) rows.now }
    ensures { IfOk result (λ made. made ≡ text ++ flat_map (row_records surveyed.now) rows.now) }
{
    let mut made = text;
    for row in rows {
        made = with_row(made, heap, surveyed, all, *row)?;
    }
    Ok(made)
}

/// The header.
fn header<A: Allocator>(alloc: A, heap: Global) -> Result<CsvText<A>, AllocError>
    ensures { IfOk result (λ made. made ≡ record_text names) }
{
    let names = [
        "row", "cost", "cycles", "front", "all", "program", "weight", "low", "high",
    ];
    CsvText::with_header(alloc, heap, names.as_slice())
}

/// The weights of the table as CSV: a header, and for each of its rows a record for each program of which there are
/// weights for which the row is on the front, from `low` to `high`. An end at the limit of weights is empty.
///
/// Everything except the text is allocated in `heap`.
pub fn weights_csv<A: Allocator>(
    alloc: A,
    heap: Global,
    surveyed: &Surveyed<'_, A>,
) -> Result<Vec<u8, A>, AllocError>
    ensures { IfOk result (λ text. text.items ≡ weights_csv_of surveyed.now) }
{
    let spans = weight_columns(heap, surveyed)?;
    let all = spans.as_slice();
    let listed = listed_rows(heap, surveyed, all)?;
    let text = header(alloc, heap)?;
    with_rows(text, heap, surveyed, all, listed.as_slice())?.into_bytes()
}
