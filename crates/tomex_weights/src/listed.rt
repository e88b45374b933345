//! The rows that are on the front, or join it if one weight is replaced.

ghost use Rattle.std.specs.Prelude.{◌≡◌, ◌<◌, length, slice_index_or, All, IfOk};
ghost use Rattle.std.specs.List.{filter, list_any, Contains};
ghost use Rattle.tomex_pareto.specs.Spans.{no_values};
ghost use Rattle.tomex_study.specs.StudyFront.{all_rows};
ghost use Rattle.tomex_weights.specs.Listed.{all_spans_of, has_weights, is_listed, listed_rows_of};

use crate::columns::WeightColumn;
use std::alloc::{AllocError, Allocator};
use tomex_pareto::{FrontRow, ValueSpan, is_on, sort_by_cost};
use tomex_study::Surveyed;

/// True if some weight is in a span.
pub(crate) fn has_weights(span: ValueSpan) -> bool
    ensures { result ≡ has_weights span }
{
    span.first < span.end
}

/// True if a row is on the front for some weight of one of these programs.
fn comes_by_weights(columns: &[WeightColumn], row: usize) -> bool
    requires { All (λ c. row < length c.spans) columns.now }
    ensures { result ≡ list_any (λ c. has_weights (slice_index_or c.spans row no_values)) columns.now }
{
    for column in columns {
        if has_weights(column.at(row)) {
            return true;
        }
    }
    false
}

/// True if a row is on the front as stated, or for some weight of some program.
fn is_listed<A: Allocator>(
    surveyed: &Surveyed<'_, A>,
    columns: &[WeightColumn],
    row: FrontRow,
) -> bool
    requires columns { columns.now ≡ all_spans_of surveyed.now }
    requires row { Contains (all_rows surveyed.now) row }
    ensures { result ≡ is_listed surveyed.now row }
{
    surveyed.keeps_limits();
    is_on(surveyed.front(), row.row) || comes_by_weights(columns, row.row)
}

/// The rows that are listed, in the order of all rows.
fn keep_listed<A: Allocator, B: Allocator>(
    alloc: B,
    surveyed: &Surveyed<'_, A>,
    columns: &[WeightColumn],
) -> Result<Vec<FrontRow, B>, AllocError>
    requires { columns.now ≡ all_spans_of surveyed.now }
    ensures { IfOk result (λ v. v.items ≡ filter (is_listed surveyed.now) (all_rows surveyed.now)) }
{
    let mut listed = Vec::new(alloc);
    for row in surveyed.rows() {
        if is_listed(surveyed, columns, *row) {
            listed.push(*row)?;
        }
    }
    Ok(listed)
}

/// The rows that are on the front, or join it if one program's weight is replaced, by cost, then number. `columns`
/// are the study's spans.
#[tactic(auto, unfolding(crate::specs::Listed::listed_rows_of))]
pub fn listed_rows<A: Allocator, B: Allocator>(
    alloc: B,
    surveyed: &Surveyed<'_, A>,
    columns: &[WeightColumn],
) -> Result<Vec<FrontRow, B>, AllocError>
    requires { columns.now ≡ all_spans_of surveyed.now }
    ensures { IfOk result (λ v. v.items ≡ listed_rows_of surveyed.now) }
{
    let mut listed = keep_listed(alloc, surveyed, columns)?;
    sort_by_cost(&mut listed);
    Ok(listed)
}
