//! The rows of a study, cut into stretches.

ghost use Rattle.std.specs.Prelude.{◌≡◌, ◌≤◌, All, IfOk};
ghost use Rattle.tomex_config.specs.Grid.{most_rows};
ghost use Rattle.tomex_survey.specs.Stretches.{IsWithin, stretches_of};

use std::alloc::{AllocError, Allocator};

/// Neighbouring rows, which one worker handles.
#[derive(Clone, Copy, Drop)]
pub struct Stretch {
    /// The worker's number, from 0.
    pub worker: usize,
    /// The first of its rows.
    pub first: usize,
    /// The row after the last of them.
    pub end: usize,
}

/// The rows, cut into a stretch for each worker. Their lengths differ by at most one row.
pub fn stretches<A: Allocator>(
    alloc: A,
    rows: usize,
    workers: usize,
) -> Result<Vec<Stretch, A>, AllocError>
    requires few_rows { rows ≤ most_rows }
    requires few_workers { workers ≤ 32 }
    ensures are { IfOk result (λ v. v.items ≡ stretches_of rows workers) }
    ensures within { IfOk result (λ v. All (IsWithin rows) v.items) }
{
    let mut stretches = Vec::with_capacity(alloc, workers)?;
    for worker in 0..workers {
        stretches.push(Stretch {
            worker,
            first: worker * rows / workers,
            end: (worker + 1) * rows / workers,
        })?;
    }
    Ok(stretches)
}
