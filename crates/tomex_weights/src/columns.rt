//! The spans of all rows, for each program on whose weight the front may depend.

ghost use Rattle.std.specs.Prelude.{◌≡◌, ◌<◌, length, map, slice_index_or, All, IfOk};
ghost use Rattle.std.specs.List.{Contains};
ghost use Rattle.tomex_pareto.specs.Spans.{HasRoom, no_values};
ghost use Rattle.tomex_study.specs.StudyFront.{all_rows};
ghost use Rattle.tomex_weights.specs.Listed.{all_spans_of, spans_by};
ghost use Rattle.tomex_weights.specs.Spans.{rows_by_weight, span_of};

use crate::line_rows::{by_weight, front_by_weight, rows_by_weight};
use crate::listed::has_weights;
use crate::programs::relevant_programs;
use crate::spans::{GREATEST_WEIGHT, span_of};
use std::alloc::{AllocError, Allocator, Global};
use std::marker::Model;
use tomex_pareto::{FrontRow, LineRow, ValueSpan, settled_span};
use tomex_study::Surveyed;

/// For which weights of the program at a place each row is on the front.
#[derive(Drop)]
pub struct WeightColumn {
    pub place: usize,
    pub spans: Vec<ValueSpan>,
}

impl Model for WeightColumn {
    ghost use Rattle.tomex_weights.specs.Listed.{ProgramSpans};

    ghost Value = { ProgramSpans };

    ghost view = { λ c. record { place = c.place; spans = c.spans.items } };
}

impl WeightColumn {
    /// The span of the row of this number.
    pub(crate) fn at(&self, row: usize) -> ValueSpan
        requires { row < length self.now.spans }
        ensures { result ≡ slice_index_or self.now.spans row no_values }
    {
        self.spans[row]
    }
}

/// The span of a row. `front` are the rows of the study's front by that weight: most rows are dominated by one of them
/// at each weight, and then no others are looked at.
fn span_by<A: Allocator>(
    surveyed: &Surveyed<'_, A>,
    place: usize,
    front: &[LineRow],
    rows: &[LineRow],
    row: FrontRow,
) -> ValueSpan
    requires place { place < length surveyed.now.programs }
    requires front_room { All HasRoom front.now }
    requires front { All (Contains (rows_by_weight surveyed.now place)) front.now }
    requires room { All HasRoom rows.now }
    requires rows { rows.now ≡ rows_by_weight surveyed.now place }
    requires row { Contains (all_rows surveyed.now) row }
    ensures { result ≡ span_of surveyed.now place row }
{
    let line = by_weight(surveyed, place, row);
    let among_front = settled_span(1, GREATEST_WEIGHT, line, front);
    if has_weights(among_front) {
        span_of(surveyed, place, rows, row)
    } else {
        among_front
    }
}

/// The spans of all rows for the program at a place.
fn column<A: Allocator>(
    heap: Global,
    surveyed: &Surveyed<'_, A>,
    place: usize,
) -> Result<WeightColumn, AllocError>
    requires { place < length surveyed.now.programs }
    ensures { IfOk result (λ c. c ≡ spans_by surveyed.now place) }
{
    let rows = rows_by_weight(heap, surveyed, place)?;
    let front = front_by_weight(heap, surveyed, place)?;
    let mut spans = Vec::with_capacity(heap, surveyed.rows().len())?;
    for row in surveyed.rows() {
        let span = span_by(surveyed, place, front.as_slice(), rows.as_slice(), *row);
        spans.push(span)?;
    }
    Ok(WeightColumn { place, spans })
}

/// The same for the programs at several places.
fn columns_at<A: Allocator>(
    heap: Global,
    surveyed: &Surveyed<'_, A>,
    places: &[usize],
) -> Result<Vec<WeightColumn>, AllocError>
    requires { All (λ place. place < length surveyed.now.programs) places.now }
    ensures { IfOk result (λ v. v.items ≡ map (spans_by surveyed.now) places.now) }
{
    let mut columns = Vec::with_capacity(heap, places.len())?;
    for place in places {
        columns.push(column(heap, surveyed, *place)?)?;
    }
    Ok(columns)
}

/// The spans of all rows, for each program that takes differently many cycles on two rows.
#[tactic(auto, unfolding(crate::specs::Listed::all_spans_of))]
pub fn weight_columns<A: Allocator>(
    heap: Global,
    surveyed: &Surveyed<'_, A>,
) -> Result<Vec<WeightColumn>, AllocError>
    ensures { IfOk result (λ v. v.items ≡ all_spans_of surveyed.now) }
{
    let places = relevant_programs(heap, surveyed)?;
    columns_at(heap, surveyed, places.as_slice())
}
