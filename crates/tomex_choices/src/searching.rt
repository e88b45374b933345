//! The new machines of a study's rows, by workers with a stretch of rows each.

ghost use Rattle.std.specs.Prelude.{◌≡◌, ◌≤◌, ℕ, List, length, All, IfOk};
ghost use Rattle.std.specs.List.{AllZip, flat_map};
ghost use Rattle.tomex_study.specs.Study.{DesignSpace};
ghost use Rattle.tomex_study.specs.Surveyed.{AreTotalsOf};
ghost use Rattle.tomex_survey.specs.Stretches.{IsWithin};
ghost use Rattle.tomex_survey.specs.declared.stretch.Stretch.{Stretch};
ghost use Rattle.tomex_choices.specs.Asking.{AreFound, AreLists, IsChain, IsFoundIn};

use crate::asking::ask_row;
use crate::entries::Entries;
use crate::found::Found;
use rayon::prelude::*;
use std::alloc::{AllocError, Allocator};
use std::thread::Threads;
use tomex_config::{Config, Part};
use tomex_plateaus::Knowledge;
use tomex_study::{Gate, Study};
use tomex_survey::{Stretch, stretches, totals_on_row};

/// The programs' totals on each row of a stretch, and what these rows bring to the lists.
fn found_in_stretch<A: Allocator + Clone, G: Gate>(
    alloc: A,
    study: &Study<A>,
    lists: &[Entries<'_>],
    gate: &G,
    stretch: Stretch,
) -> Result<Found<A>, AllocError>
    requires within { IsWithin (length study.now.rows) stretch }
    requires lists { AreLists study.now.rows lists.now }
    ensures { IfOk result (λ f. IsFoundIn study.now stretch f) }
{
    study.keeps_limits();
    let mut knowledge = Knowledge::new(alloc.clone()?, study.programs())?;
    let mut found = Found::nothing(alloc)?;
    for row in stretch.first..stretch.end {
        let totals = totals_on_row(&mut knowledge, study, gate, stretch.worker, row)?;
        found.totals.push(totals)?;
        ask_row(&mut knowledge, study, lists, row, &mut found.lists)?;
    }
    Ok(found)
}

/// What is found in each stretch, by threads. The calling thread handles one stretch.
fn parts<R: Threads + Sync, A: Allocator + Clone + Send + Sync + Drop, G: Gate + Sync>(
    rt: &R,
    alloc: A,
    study: &Study<A>,
    lists: &[Entries<'_>],
    gate: &G,
    stretches: &[Stretch],
) -> Result<Vec<Found<A>, A>, AllocError>
    requires within { All (IsWithin (length study.now.rows)) stretches.now }
    requires lists { AreLists study.now.rows lists.now }
    ensures { IfOk result (λ v. AllZip (λ s f. IsFoundIn study.now s f) stretches.now v.items) }
{
    let heap = &alloc;
    let outer: Result<Result<Vec<Found<A>, A>, AllocError>, AllocError> = stretches
        .par_iter()
        .with_min_len(1)
        .map(
            |stretch: &Stretch| -> Result<Found<A>, AllocError>
                requires within { IsWithin (length study.now.rows) stretch.now }
                requires lists { AreLists study.now.rows lists.now }
                ensures { IfOk result (λ f. IsFoundIn study.entry.now stretch.now f) }
            { found_in_stretch(heap.clone()?, study, lists, gate, *stretch) },
        )
        .collect(rt, heap.clone()?);
    outer?
}

/// What was found in all stretches.
fn join_parts<A: Allocator + Clone>(
    alloc: A,
    parts: Vec<Found<A>, A>,
) -> Result<Found<A>, AllocError>
    requires { All (λ p. length p.lists.items ≡ 13) parts.items }
    ensures totals { IfOk result (λ f. f.totals.items ≡ flat_map (λ p. p.totals.items) parts.items) }
    ensures lists { (s : DesignSpace) (to : ℕ) (stretches : List Stretch) → IsChain 0 to stretches
        → AllZip (IsFoundIn s) stretches parts.items → IfOk result (λ f. AreFound s 0 to f.lists.items) }
{
    let mut all = Found::nothing(alloc)?;
    for part in parts {
        all.append(part)?;
    }
    Ok(all)
}

/// The entries of each list.
fn all_entries<'s, A: Allocator>(
    alloc: A,
    rows: &'s [Config],
) -> Result<Vec<Entries<'s>, A>, AllocError>
    ensures { IfOk result (λ v. AreLists rows.now v.items) }
{
    let mut lists = Vec::with_capacity(alloc, Part::ALL.len())?;
    for place in 0..Part::ALL.len() {
        lists.push(Entries::new(rows, place))?;
    }
    Ok(lists)
}

/// The programs' totals on each row of a study, and what the rows bring to each list, computed by `workers` workers.
pub(crate) fn all_found<
    R: Threads + Sync,
    A: Allocator + Clone + Send + Sync + Drop,
    G: Gate + Sync,
>(rt: &R, alloc: A, study: &Study<A>, workers: usize, gate: &G) -> Result<Found<A>, AllocError>
    requires some_workers { 1 ≤ workers }
    requires few_workers { workers ≤ 32 }
    ensures totals { IfOk result (λ f. AreTotalsOf study.now f.totals.items) }
    ensures lists { IfOk result (λ f. AreFound study.now 0 (length study.now.rows) f.lists.items) }
{
    study.keeps_limits();
    let lists = all_entries(alloc.clone()?, study.rows())?;
    let stretches = stretches(alloc.clone()?, study.rows().len(), workers)?;
    let parts = parts(
        rt,
        alloc.clone()?,
        study,
        lists.as_slice(),
        gate,
        stretches.as_slice(),
    )?;
    join_parts(alloc, parts)
}
