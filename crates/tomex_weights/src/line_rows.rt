//! Rows by the weight of one program.

ghost use Rattle.std.specs.Prelude.{◌≡◌, ◌<◌, length, map, All, IfOk};
ghost use Rattle.std.specs.List.{Contains};
ghost use Rattle.tomex_pareto.specs.Spans.{HasRoom};
ghost use Rattle.tomex_study.specs.StudyFront.{all_rows, front_of_study};
ghost use Rattle.tomex_weights.specs.Spans.{by_weight, rows_by_weight};

use crate::programs::own_cycles;
use std::alloc::{AllocError, Allocator};
use tomex_pareto::{FrontRow, LineRow};
use tomex_study::Surveyed;

/// A row by the weight of the program at a place: its cycles, in hundredths, are a line in that weight.
pub(crate) fn by_weight<A: Allocator>(
    surveyed: &Surveyed<'_, A>,
    place: usize,
    row: FrontRow,
) -> LineRow
    requires place { place < length surveyed.now.programs }
    requires row { Contains (all_rows surveyed.now) row }
    ensures line { result ≡ by_weight surveyed.now place row }
    ensures room { HasRoom result }
{
    surveyed.keeps_limits();
    let weight = u64::from(surveyed.study().programs()[place].weight());
    let times = own_cycles(surveyed, place, row.row);
    LineRow {
        row: row.row,
        rest: 100 * (row.cycles - weight * times),
        times,
        other: row.cost,
    }
}

/// Rows of a study by the weight of the program at a place.
fn lines_of<A: Allocator, B: Allocator>(
    alloc: B,
    surveyed: &Surveyed<'_, A>,
    place: usize,
    rows: &[FrontRow],
) -> Result<Vec<LineRow, B>, AllocError>
    requires place { place < length surveyed.now.programs }
    requires rows { All (Contains (all_rows surveyed.now)) rows.now }
    ensures rows { IfOk result (λ v. v.items ≡ map (by_weight surveyed.now place) rows.now) }
    ensures room { IfOk result (λ v. All HasRoom v.items) }
{
    let mut lines = Vec::with_capacity(alloc, rows.len())?;
    for row in rows {
        lines.push(by_weight(surveyed, place, *row))?;
    }
    Ok(lines)
}

/// All rows of a study by the weight of the program at a place.
pub fn rows_by_weight<A: Allocator, B: Allocator>(
    alloc: B,
    surveyed: &Surveyed<'_, A>,
    place: usize,
) -> Result<Vec<LineRow, B>, AllocError>
    requires { place < length surveyed.now.programs }
    ensures rows { IfOk result (λ v. v.items ≡ rows_by_weight surveyed.now place) }
    ensures room { IfOk result (λ v. All HasRoom v.items) }
{
    lines_of(alloc, surveyed, place, surveyed.rows())
}

/// The rows of its front.
pub(crate) fn front_by_weight<A: Allocator, B: Allocator>(
    alloc: B,
    surveyed: &Surveyed<'_, A>,
    place: usize,
) -> Result<Vec<LineRow, B>, AllocError>
    requires { place < length surveyed.now.programs }
    ensures rows { IfOk result (λ v. v.items ≡ map (by_weight surveyed.now place) (front_of_study surveyed.now)) }
    ensures there { IfOk result (λ v. All (Contains (rows_by_weight surveyed.now place)) v.items) }
    ensures room { IfOk result (λ v. All HasRoom v.items) }
{
    lines_of(alloc, surveyed, place, surveyed.front())
}
