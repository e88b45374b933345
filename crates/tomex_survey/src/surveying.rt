//! The survey of a study.

ghost use Rattle.std.specs.Prelude.{◌≡◌, ◌≤◌, IfOk};
ghost use Rattle.tomex_study.specs.Surveyed.{AreTotalsOf};

use crate::rows::all_rows;
use crate::totals::all_totals;
use std::alloc::{AllocError, Allocator};
use std::thread::Threads;
use tomex_pareto::front;
use tomex_study::{Gate, Study, Surveyed};

/// A study with the totals of its programs on each row, in arrays whose entries after them are unused.
pub fn surveyed<'s, A: Allocator + Clone>(
    alloc: A,
    study: &'s Study<A>,
    totals: Vec<[u64; 8], A>,
) -> Result<Surveyed<'s, A>, AllocError>
    requires { AreTotalsOf study.now totals.items }
    ensures { IfOk result (λ s. s ≡ study.now) }
{
    let rows = all_rows(alloc.clone()?, study, totals.as_slice())?;
    let mut sorted = Vec::with_capacity(alloc.clone()?, rows.len())?;
    sorted.extend_from_slice(rows.as_slice())?;
    let front = front(alloc, sorted)?;
    Ok(Surveyed::new(study, totals, rows, front))
}

/// Computes each program's cycles on each row of a study. Rows are divided among `workers` workers,
/// in stretches of neighbours; each worker keeps what it has learnt to itself. With one worker no
/// thread is started.
pub fn survey<'s, R: Threads + Sync, A: Allocator + Clone + Send + Sync + Drop, G: Gate + Sync>(
    rt: &R,
    alloc: A,
    study: &'s Study<A>,
    workers: usize,
    gate: &G,
) -> Result<Surveyed<'s, A>, AllocError>
    requires some_workers { 1 ≤ workers }
    requires few_workers { workers ≤ 32 }
    ensures { IfOk result (λ s. s ≡ study.now) }
{
    study.keeps_limits();
    gate.begins(study.rows().len());
    let totals = all_totals(rt, alloc.clone()?, study, workers, gate)?;
    surveyed(alloc, study, totals)
}
