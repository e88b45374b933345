//! Explorations.

ghost use Rattle.std.specs.Prelude.{◌≡◌, ◌≤◌, IfOk};
ghost use Rattle.tomex_study.specs.Cycles.{cycles_of};
ghost use Rattle.tomex_sweep.specs.Exploration.{IsExploration};
ghost use Rattle.tomex_sweep.specs.Marks.{AreJudged};
ghost use Rattle.tomex_workers.specs.Plans.{IsPlanOf};

use crate::crew::run_workers;
use crate::finished::front_of_finished;
use crate::leftovers::close_rest;
use crate::outcome::{Outcome, SweepError};
use crate::stacks::{Stacks, UsualStacks};
use std::alloc::Allocator;
use std::marker::Brand;
use std::sync::Wait;
use std::thread::Threads;
use tomex_board::{Board, Mark, Plan};
use tomex_lanes::{deal, seat_workers, settle};
use tomex_study::{Gate, Study};

/// The marks of a study's rows when all workers are done, on a board that is made for the study's costs and cycles.
fn marks_of_workers<
    J: Plan + Send + Sync,
    R: Threads + Wait + Sync,
    A: Allocator + Clone + Send + Sync + Drop,
    G: Gate + Sync,
    S: Stacks + Sync,
>(
    rt: &R,
    alloc: A,
    study: &Study<A>,
    workers: usize,
    gate: &G,
    stacks: &S,
) -> Result<Vec<Mark, A>, SweepError>
    requires some_workers { 1 ≤ workers }
    requires few_workers { workers ≤ 32 }
    requires plan { IsPlanOf study.now J.costs J.cycles }
    ensures { IfOk result (λ marks. AreJudged study.now.costs (cycles_of study.now) marks.items) }
{
    // Laws: the board requires cycles that fit its words, as those of lawful rows and programs do.
    study.keeps_limits();
    let costs = study.costs();
    let lanes = deal(alloc.clone()?, workers, costs.len())?;
    let (board, seat) = Board::<J, A>::new(alloc.clone()?, costs)?;
    let crew = seat_workers(alloc.clone()?, &board, seat, lanes)?;
    let parts = run_workers(rt, alloc, study, &board, crew, gate, stacks)?;
    Ok(settle(board, parts))
}

/// `explore` with threads whose stacks the caller chooses.
pub fn explore_on<
    R: Threads + Wait + Sync,
    A: Allocator + Clone + Send + Sync + Drop,
    G: Gate + Sync,
    S: Stacks + Sync,
>(
    rt: &R,
    alloc: A,
    study: &Study<A>,
    workers: usize,
    gate: &G,
    stacks: &S,
) -> Result<Outcome<A>, SweepError>
    requires some_workers { 1 ≤ workers }
    requires few_workers { workers ≤ 32 }
    ensures { IfOk result (λ o. IsExploration study.now o.marks.items o.front.items o.gathered) }
{
    study.keeps_limits();
    let costs = study.costs();
    gate.begins(costs.len());
    let mut marks = marks_of_workers::<Brand, R, A, G, S>(
        rt,
        alloc.clone()?,
        study,
        workers,
        gate,
        stacks,
    )?;
    let gathered = close_rest(alloc.clone()?, study, &mut marks)?;
    let front = front_of_finished(alloc, costs, marks.as_slice())?;
    Ok(Outcome {
        marks,
        front,
        gathered,
    })
}

/// Runs each row until it is over, or until a finished row is known that costs no more and takes
/// strictly fewer cycles, and returns the front.
///
/// The rows are dealt to `workers` workers, each in a thread. A worker whose own rows are all taken
/// steals from the others; they share only the study and a board of single words, so none waits for
/// another. Which rows are dropped depends on who was faster. The front doesn't.
///
/// If a thread can't be started, or out of memory, waits for the started threads first.
pub fn explore<R: Threads + Wait + Sync, A: Allocator + Clone + Send + Sync + Drop, G: Gate + Sync>(
    rt: &R,
    alloc: A,
    study: &Study<A>,
    workers: usize,
    gate: &G,
) -> Result<Outcome<A>, SweepError>
    requires some_workers { 1 ≤ workers }
    requires few_workers { workers ≤ 32 }
    ensures { IfOk result (λ o. IsExploration study.now o.marks.items o.front.items o.gathered) }
{
    explore_on(rt, alloc, study, workers, gate, &UsualStacks)
}
