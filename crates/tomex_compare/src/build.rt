//! The programs that are compared.

ghost use Rattle.std.specs.Prelude.{◌≡◌, ◌<◌, length, Some, slice_get};
ghost use Rattle.tomex_study.specs.Cycles.{total_at};
ghost use Rattle.tomex_compare.specs.Builds.{IsBuild};

use std::alloc::Allocator;
use tomex_study::{Program, Surveyed};

/// A program of a study.
#[derive(Drop)]
pub struct Build<'p, A: Allocator> {
    /// Its place among the study's programs.
    pub place: usize,
    pub program: &'p Program<A>,
}

/// The program of a study at a place.
pub fn build_at<'s, A: Allocator>(surveyed: &Surveyed<'s, A>, place: usize) -> Build<'s, A>
    requires { place < length surveyed.now.programs }
    ensures build { IsBuild surveyed.now result.place result.program.now }
    ensures place { result.place ≡ place }
{
    let program = &surveyed.study().programs()[place];
    Build { place, program }
}

/// The cycles of a build on a row.
pub fn total_on<A: Allocator>(surveyed: &Surveyed<'_, A>, build: &Build<'_, A>, row: usize) -> u64
    requires row { row < length surveyed.now.rows }
    requires build { IsBuild surveyed.now build.now.place build.now.program.now }
    ensures { result ≡ total_at surveyed.now build.now.program.now row }
{
    surveyed.total(row, build.place)
}
