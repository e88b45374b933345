//! The front of a single build: that of all rows with their costs and its cycles.

ghost use Rattle.std.specs.Prelude.{◌≡◌, ◌<◌, length, IfOk, map};
ghost use Rattle.tomex_pareto.specs.Front.{is_on};
ghost use Rattle.tomex_study.specs.StudyFront.{all_rows};
ghost use Rattle.tomex_compare.specs.Builds.{IsBuild};
ghost use Rattle.tomex_compare.specs.Groups.{AreMarks, own_front, row_with};

use crate::build::{Build, total_on};
use std::alloc::{AllocError, Allocator, Global};
use tomex_pareto::{FrontRow, front};
use tomex_study::Surveyed;

/// All rows with the cycles of a build.
fn rows_with<A: Allocator>(
    heap: Global,
    surveyed: &Surveyed<'_, A>,
    build: &Build<'_, A>,
) -> Result<Vec<FrontRow>, AllocError>
    requires { IsBuild surveyed.now build.now.place build.now.program.now }
    ensures { IfOk result (λ v. v.items ≡ map (row_with surveyed.now build.now.program.now) (all_rows surveyed.now)) }
{
    let mut rows = Vec::new(heap);
    for row in surveyed.rows() {
        let cycles = total_on(surveyed, build, row.row);
        rows.push(FrontRow { cycles, ..*row })?;
    }
    Ok(rows)
}

/// For each number below `count`, true if the row of that number is on the front.
fn marks_of(heap: Global, front: &[FrontRow], count: usize) -> Result<Vec<bool>, AllocError>
    ensures { IfOk result (λ v. AreMarks front.now count v.items) }
{
    let mut marks = vec![in heap; false; count]?;
    for row in front {
        if row.row < count {
            marks[row.row] = true;
        }
    }
    Ok(marks)
}

/// For each row, true if it is on the front of a build.
pub fn on_own_front<A: Allocator>(
    heap: Global,
    surveyed: &Surveyed<'_, A>,
    build: &Build<'_, A>,
) -> Result<Vec<bool>, AllocError>
    requires { IsBuild surveyed.now build.now.place build.now.program.now }
    ensures { IfOk result
        (λ v. AreMarks (own_front surveyed.now build.now.program.now) (length surveyed.now.rows) v.items) }
{
    let rows = rows_with(heap, surveyed, build)?;
    let front = front(heap, rows)?;
    marks_of(heap, front.as_slice(), surveyed.rows().len())
}
