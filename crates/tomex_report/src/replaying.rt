//! Front rows, run again for their programs' ends.

ghost use Rattle.std.specs.Prelude.{◌≡◌, ◌<◌, length, All, IfOk};
ghost use Rattle.std.specs.List.{AllZip};
ghost use Rattle.tomex_texts.specs.RowEnds.{AreEndsOf};

use crate::program_ends::each_end;
use rayon::prelude::*;
use std::alloc::{AllocError, Allocator};
use std::thread::Threads;
use tomex_study::Study;
use tomex_sweep::FrontRow;
use tomex_texts::RowEnds;

/// The ends of the programs on one row, which is run again.
fn ends_of<A: Allocator + Clone>(
    alloc: A,
    study: &Study<A>,
    row: FrontRow,
) -> Result<RowEnds<A>, AllocError>
    requires { row.row < length study.now.rows }
    ensures { IfOk result (λ e. AreEndsOf study.now row e) }
{
    let programs = each_end(alloc, study.programs(), &study.rows()[row.row])?;
    Ok(RowEnds { programs })
}

/// Runs each row of a front again, in threads, and gives the ends in the front's order.
pub fn replay<R: Threads + Sync, A: Allocator + Clone + Send + Sync + Drop>(
    rt: &R,
    alloc: A,
    study: &Study<A>,
    front: &[FrontRow],
) -> Result<Vec<RowEnds<A>, A>, AllocError>
    requires rows { All (λ r. r.row < length study.now.rows) front.now }
    ensures { IfOk result (λ v. AllZip (λ r e. AreEndsOf study.now r e) front.now v.items) }
{
    let heap = &alloc;
    let outer: Result<Result<Vec<RowEnds<A>, A>, AllocError>, AllocError> = front
        .par_iter()
        .with_min_len(1)
        .map(
            |r: &FrontRow| -> Result<RowEnds<A>, AllocError>
                requires { r.now.row < length study.now.rows }
                ensures { IfOk result (λ e. AreEndsOf study.entry.now r.now e) }
            { ends_of(heap.clone()?, study, *r) },
        )
        .collect(rt, heap.clone()?);
    outer?
}
