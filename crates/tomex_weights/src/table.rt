//! The table of a study's weights.

ghost use Rattle.std.specs.Prelude.{◌≡◌, ◌<◌, ◌++◌, length, map, string_bytes, All, IfOk, OnOk};
ghost use Rattle.std.specs.List.{Contains};
ghost use Rattle.tomex_study.specs.StudyFront.{all_rows};
ghost use Rattle.tomex_weights.specs.Listed.{all_spans_of, IsOfProgram};
ghost use Rattle.tomex_weights.specs.Reweighted.{weight_at};
ghost use Rattle.tomex_weights.specs.Spans.{span_of};
ghost use Rattle.tomex_weights.specs.WeightsTable.{all_text, columns_of, name_at, percent_column, weight_column};
ghost use Rattle.tomex_weights.specs.WeightsTable.{weights_table_of};

use crate::columns::{WeightColumn, weight_columns};
use crate::listed::listed_rows;
use crate::percents::percent;
use crate::texts::span_text;
use std::alloc::{AllocError, Allocator, Global};
use tomex_layout::{Column, percent_text, push_row_columns, table_of};
use tomex_pareto::{FrontRow, ValueSpan, is_on};
use tomex_study::Surveyed;

/// The percentage by which all weights may be wrong at once, if the row is on the front; else `-`.
fn all_text<A: Allocator>(
    heap: Global,
    surveyed: &Surveyed<'_, A>,
    row: FrontRow,
) -> Result<String, AllocError>
    requires { row.row < length surveyed.now.rows }
    ensures { IfOk result (λ text. string_bytes text ≡ all_text surveyed.now row) }
{
    if is_on(surveyed.front(), row.row) {
        percent_text(heap, percent(surveyed, row))
    } else {
        format!(in heap; "-")
    }
}

/// The column of the percentages by which all weights may be wrong at once.
#[tactic(auto, unfolding(crate::specs::WeightsTable::percent_column))]
fn percent_column<A: Allocator>(
    heap: Global,
    surveyed: &Surveyed<'_, A>,
    rows: &[FrontRow],
) -> Result<Column, AllocError>
    requires { All (λ r. r.row < length surveyed.now.rows) rows.now }
    ensures { IfOk result (λ c. c ≡ percent_column surveyed.now rows.now) }
{
    let mut column = Column::new(heap, format!(in heap; "all")?);
    column.push(format!(in heap; "-")?)?;
    for row in rows {
        column.push(all_text(heap, surveyed, *row)?)?;
    }
    Ok(column)
}

/// The span of a row among those of all rows.
pub(crate) fn span_at<A: Allocator>(
    surveyed: &Surveyed<'_, A>,
    spans: &WeightColumn,
    row: FrontRow,
) -> ValueSpan
    requires spans { IsOfProgram surveyed.now spans.now }
    requires row { Contains (all_rows surveyed.now) row }
    ensures { result ≡ span_of surveyed.now spans.now.place row }
{
    surveyed.keeps_limits();
    spans.at(row.row)
}

/// The name of the program at a place.
pub(crate) fn name_at<'s, A: Allocator>(surveyed: &Surveyed<'s, A>, place: usize) -> &'s str
    requires { place < length surveyed.now.programs }
    ensures { result.now ≡ name_at surveyed.now place }
{
    surveyed.study().programs()[place].name()
}

/// Its stated weight.
pub(crate) fn weight_at<A: Allocator>(surveyed: &Surveyed<'_, A>, place: usize) -> u32
    requires { place < length surveyed.now.programs }
    ensures { result ≡ weight_at surveyed.now place }
{
    surveyed.study().programs()[place].weight()
}

/// The column of a program: its name, its stated weight, and its spans.
#[tactic(auto, unfolding(crate::specs::WeightsTable::weight_column))]
fn weight_column<A: Allocator>(
    heap: Global,
    surveyed: &Surveyed<'_, A>,
    spans: &WeightColumn,
    rows: &[FrontRow],
) -> Result<Column, AllocError>
    requires spans { IsOfProgram surveyed.now spans.now }
    requires rows { All (Contains (all_rows surveyed.now)) rows.now }
    ensures { IfOk result (λ c. c ≡ weight_column surveyed.now rows.now spans.now.place) }
{
    let place = spans.place;
    let (name, weight) = (name_at(surveyed, place), weight_at(surveyed, place));
    let mut column = Column::new(heap, format!(in heap; "{name}")?);
    column.push(format!(in heap; "{weight}")?)?;
    for row in rows {
        let span = span_at(surveyed, spans, *row);
        column.push(span_text(heap, span)?)?;
    }
    Ok(column)
}

/// Adds a column for each of these programs.
fn push_weights<A: Allocator>(
    columns: &mut Vec<Column>,
    heap: Global,
    surveyed: &Surveyed<'_, A>,
    all: &[WeightColumn],
    rows: &[FrontRow],
) -> Result<(), AllocError>
    requires all { All (IsOfProgram surveyed.now) all.now }
    requires rows { All (Contains (all_rows surveyed.now)) rows.now }
    ensures { OnOk result (columns.new.items
        ≡ columns.old.items ++ map (λ p. weight_column surveyed.now rows.now p.place) all.now) }
{
    for spans in all {
        columns.push(weight_column(heap, surveyed, spans, rows)?)?;
    }
    Ok(())
}

/// Adds all columns. `all` are the study's spans.
fn push_columns<A: Allocator>(
    columns: &mut Vec<Column>,
    heap: Global,
    surveyed: &Surveyed<'_, A>,
    all: &[WeightColumn],
    rows: &[FrontRow],
) -> Result<(), AllocError>
    requires all { all.now ≡ all_spans_of surveyed.now }
    requires rows { All (Contains (all_rows surveyed.now)) rows.now }
    ensures { OnOk result (columns.new.items ≡ columns.old.items ++ columns_of surveyed.now rows.now) }
{
    surveyed.keeps_limits();
    push_row_columns(columns, heap, rows)?;
    columns.push(percent_column(heap, surveyed, rows)?)?;
    push_weights(columns, heap, surveyed, all, rows)?;
    Ok(())
}

/// The table of a study's weights: a line of names, a line of the stated weights, and then a line for each row that is
/// on the front, or joins it if one program's weight is replaced, by cost, then number. A line has the row's number,
/// cost and cycles; the percentage by which all weights may be wrong at once, if the row is on the front; and, for each
/// program that takes differently many cycles on two rows, the weights of it for which the row is on the front.
///
/// Everything except the text is allocated in `heap`.
pub fn weights_table<A: Allocator>(
    alloc: A,
    heap: Global,
    surveyed: &Surveyed<'_, A>,
) -> Result<Vec<u8, A>, AllocError>
    ensures { IfOk result (λ text. text.items ≡ weights_table_of surveyed.now) }
{
    let spans = weight_columns(heap, surveyed)?;
    let all = spans.as_slice();
    let listed = listed_rows(heap, surveyed, all)?;
    let rows = listed.as_slice();
    let mut columns = Vec::new(heap);
    push_columns(&mut columns, heap, surveyed, all, rows)?;
    table_of(alloc, rows.len() + 1, columns.as_slice())
}
