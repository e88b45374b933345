//! The totals of a study's programs on its rows.

ghost use Rattle.std.specs.Prelude.{◌≡◌, ◌<◌, ◌≤◌, count_by, flat_map, is_some, length, not, take, All, IfOk, OnOk};
ghost use Rattle.std.specs.List.{AllZip};
ghost use Rattle.tomex_plateaus.specs.Knowledge.{AreLearntOn, AreTotalsOn};
ghost use Rattle.tomex_survey.specs.Stretches.{AreTotalsIn, IsWithin};
ghost use Rattle.tomex_study.specs.Surveyed.{AreTotalsOf};

use crate::stretch::{Stretch, stretches};
use rayon::prelude::*;
use std::alloc::{AllocError, Allocator};
use std::thread::Threads;
use tomex_plateaus::Knowledge;
use tomex_study::{Gate, Study};

/// The number of programs whose total isn't known.
fn count_unknown(programs: usize, totals: &[Option<u64>; 8]) -> usize
    ensures { result ≡ count_by (λ t. not (is_some t)) (take programs totals.now) }
{
    totals
        .iter()
        .take(programs)
        .filter(|total| total.is_none())
        .count()
}

/// The programs' totals on a row, which are looked up first, or learnt.
pub fn totals_on_row<'s, A: Allocator + Clone, G: Gate>(
    knowledge: &mut Knowledge<'s, A>,
    study: &'s Study<A>,
    gate: &G,
    worker: usize,
    row: usize,
) -> Result<[u64; 8], AllocError>
    requires programs { knowledge.old.programs ≡ study.now.programs }
    requires row { row < length study.now.rows }
    ensures programs { knowledge.new.programs ≡ knowledge.old.programs }
    ensures totals { IfOk result (λ t. AreTotalsOn study.now row t) }
    ensures learnt { OnOk result (AreLearntOn study.now row knowledge.old.lists knowledge.new.lists) }
{
    gate.before(worker, row);
    let config = &study.rows()[row];
    let known = knowledge.known_totals(config);
    gate.runs(worker, row, count_unknown(study.programs().len(), &known));
    knowledge.learn(config, known)
}

/// The programs' totals on each row of a stretch.
fn totals_in_stretch<A: Allocator + Clone, G: Gate>(
    alloc: A,
    study: &Study<A>,
    gate: &G,
    stretch: Stretch,
) -> Result<Vec<[u64; 8], A>, AllocError>
    requires { IsWithin (length study.now.rows) stretch }
    ensures { IfOk result (λ v. AreTotalsIn study.now stretch v.items) }
{
    study.keeps_limits();
    let mut knowledge = Knowledge::new(alloc.clone()?, study.programs())?;
    let mut totals = Vec::with_capacity(alloc, stretch.end - stretch.first)?;
    for row in stretch.first..stretch.end {
        totals.push(totals_on_row(&mut knowledge, study, gate, stretch.worker, row)?)?;
    }
    Ok(totals)
}

/// The totals of all parts, one after another.
fn join_parts<A: Allocator>(
    alloc: A,
    parts: Vec<Vec<[u64; 8], A>, A>,
) -> Result<Vec<[u64; 8], A>, AllocError>
    ensures { IfOk result (λ v. v.items ≡ flat_map (λ p. p.items) parts.items) }
{
    let mut all = Vec::new(alloc);
    for mut part in parts {
        all.append(&mut part)?;
    }
    Ok(all)
}

/// The programs' totals on the rows of each stretch, computed by threads. The calling thread
/// handles one stretch.
fn parts<R: Threads + Sync, A: Allocator + Clone + Send + Sync + Drop, G: Gate + Sync>(
    rt: &R,
    alloc: A,
    study: &Study<A>,
    gate: &G,
    stretches: &[Stretch],
) -> Result<Vec<Vec<[u64; 8], A>, A>, AllocError>
    requires { All (IsWithin (length study.now.rows)) stretches.now }
    ensures { IfOk result (λ v. AllZip (λ s t. AreTotalsIn study.now s t.items) stretches.now v.items) }
{
    let heap = &alloc;
    let outer: Result<Result<Vec<Vec<[u64; 8], A>, A>, AllocError>, AllocError> = stretches
        .par_iter()
        .with_min_len(1)
        .map(
            |stretch: &Stretch| -> Result<Vec<[u64; 8], A>, AllocError>
                requires { IsWithin (length study.now.rows) stretch.now }
                ensures { IfOk result (λ t. AreTotalsIn study.entry.now stretch.now t.items) }
            { totals_in_stretch(heap.clone()?, study, gate, *stretch) },
        )
        .collect(rt, heap.clone()?);
    outer?
}

/// The programs' totals on each row of a study, computed by `workers` workers.
pub(crate) fn all_totals<
    R: Threads + Sync,
    A: Allocator + Clone + Send + Sync + Drop,
    G: Gate + Sync,
>(
    rt: &R,
    alloc: A,
    study: &Study<A>,
    workers: usize,
    gate: &G,
) -> Result<Vec<[u64; 8], A>, AllocError>
    requires some_workers { 1 ≤ workers }
    requires few_workers { workers ≤ 32 }
    ensures { IfOk result (λ v. AreTotalsOf study.now v.items) }
{
    study.keeps_limits();
    let stretches = stretches(alloc.clone()?, study.rows().len(), workers)?;
    let parts = parts(rt, alloc.clone()?, study, gate, stretches.as_slice())?;
    join_parts(alloc, parts)
}
