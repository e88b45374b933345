//! The least and the greatest cycles of a build on any row.

ghost use Rattle.std.specs.Prelude.{◌≡◌, ◌<◌, length};
ghost use Rattle.tomex_compare.specs.Builds.{IsBuild};
ghost use Rattle.tomex_compare.specs.ProgramTable.{best_row, cycles_on, worst_row};

use crate::build::{Build, total_on};
use std::alloc::Allocator;
use tomex_study::Surveyed;

/// A row, with the cycles of a build on it.
#[derive(Clone, Copy, PartialEq, Eq)]
pub struct RowCycles {
    pub row: usize,
    pub cycles: u64,
}

/// The cycles of a build on a row.
fn cycles_on<A: Allocator>(
    surveyed: &Surveyed<'_, A>,
    build: &Build<'_, A>,
    row: usize,
) -> RowCycles
    requires row { row < length surveyed.now.rows }
    requires build { IsBuild surveyed.now build.now.place build.now.program.now }
    ensures { result ≡ cycles_on surveyed.now build.now.program.now row }
{
    RowCycles {
        row,
        cycles: total_on(surveyed, build, row),
    }
}

/// The least cycles of a build on any row, and the first row with so few.
pub fn best_row<A: Allocator>(surveyed: &Surveyed<'_, A>, build: &Build<'_, A>) -> RowCycles
    requires { IsBuild surveyed.now build.now.place build.now.program.now }
    ensures { result ≡ best_row surveyed.now build.now.program.now }
{
    surveyed.keeps_limits();
    let mut best = cycles_on(surveyed, build, 0);
    for row in 0..surveyed.rows().len() {
        let here = cycles_on(surveyed, build, row);
        if here.cycles < best.cycles {
            best = here;
        }
    }
    best
}

/// The greatest cycles of a build on any row, and the last row with as many.
pub fn worst_row<A: Allocator>(surveyed: &Surveyed<'_, A>, build: &Build<'_, A>) -> RowCycles
    requires { IsBuild surveyed.now build.now.place build.now.program.now }
    ensures { result ≡ worst_row surveyed.now build.now.program.now }
{
    surveyed.keeps_limits();
    let mut worst = cycles_on(surveyed, build, 0);
    for row in 0..surveyed.rows().len() {
        let here = cycles_on(surveyed, build, row);
        if worst.cycles <= here.cycles {
            worst = here;
        }
    }
    worst
}
