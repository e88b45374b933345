//! Workers in threads.

ghost use Rattle.std.specs.Prelude.{◌≡◌, [], length, map, IfOk};
ghost use Rattle.tomex_workers.specs.Plans.{IsPlanOf};
ghost use Rattle.tomex_sweep.specs.Crews.{CanStart, CanRun, given_by, owed_by};

use crate::outcome::SweepError;
use crate::stacks::Stacks;
use std::alloc::{AllocError, Allocator};
use std::snapshot::Snapshot;
use std::sync::Wait;
use std::thread;
use std::thread::{Promise, PromisedHandle, Scope, Threads};
use tomex_board::{Board, Plan};
use tomex_lanes::{Dealt, Worker};
use tomex_study::{Gate, Study};
use tomex_workers::work;

/// A thread's contract: it returns a part with the worker's rows, and a seat of its board with its
/// numbers.
#[derive(Drop)]
pub(crate) struct DealtOf<J: Plan, A: Allocator>(Snapshot<Worker<J, A>>);

impl<J: Plan, A: Allocator> Promise<Result<Dealt<J, A>, AllocError>> for DealtOf<J, A> {
    ghost use Rattle.std.specs.Prelude.{◌≡◌, IfOk};
    ghost use Rattle.tomex_sweep.specs.Crews.{given_by, owed_by};

    ghost kept_by = { λ p r. IfOk r (λ part. given_by part ≡ owed_by p.0.value) };
}

type Running<J, A> = PromisedHandle<Result<Dealt<J, A>, AllocError>, DealtOf<J, A>>;

/// The things that all workers share: the study, the board, the gate to which they report their
/// runs, and the sizes of their threads' stacks.
#[derive(Drop)]
struct Workshop<'s, J: Plan, A: Allocator, G: Gate, S: Stacks> {
    study: &'s Study<A>,
    board: &'s Board<J, A>,
    gate: &'s G,
    stacks: &'s S,
}

/// Starts a worker's thread.
fn start<
    's,
    E,
    J: Plan + Send + Sync + 's,
    A: Allocator + Clone + Send + Sync + Drop + 's,
    G: Gate + Sync,
    S: Stacks,
>(
    scope: &Scope<'s, E>,
    alloc: &A,
    shop: &Workshop<'s, J, A, G, S>,
    worker: Worker<J, A>,
) -> Result<Running<J, A>, SweepError>
    requires plan { IsPlanOf shop.now.study.now J.costs J.cycles }
    requires worker { CanStart shop.now.board.now (length J.costs) worker }
    ensures { IfOk result (λ h. h.promise.0.value ≡ worker) }
{
    let (study, board, gate) = (shop.study, shop.board, shop.gate);
    let alloc = alloc.clone()?;
    let promise = DealtOf(Snapshot::of(&worker));
    let Worker { lane, seat } = worker;
    let stack = shop.stacks.stack_of(lane.worker());
    match stack.spawn_scoped_with(
        scope,
        promise,
        move || work(alloc, study, board, seat, lane, gate),
    ) {
        Ok(handle) => Ok(handle),
        Err(_) => Err(SweepError::Worker),
    }
}

/// Waits for threads, and drops what they return.
fn drain<R: Threads, J: Plan, A: Allocator>(rt: &R, handles: Vec<Running<J, A>, A>) {
    for handle in handles {
        let _ = handle.join(rt);
    }
}

/// Starts a thread for each worker, in their order. If one is refused, waits for all that were
/// started.
fn start_all<
    's,
    E,
    R: Threads,
    J: Plan + Send + Sync + 's,
    A: Allocator + Clone + Send + Sync + Drop + 's,
    G: Gate + Sync,
    S: Stacks,
>(
    rt: &R,
    scope: &Scope<'s, E>,
    alloc: &A,
    shop: &Workshop<'s, J, A, G, S>,
    workers: Vec<Worker<J, A>, A>,
) -> Result<Vec<Running<J, A>, A>, SweepError>
    requires { CanRun shop.now.study.now J.costs J.cycles shop.now.board.now workers.items }
    ensures { IfOk result (λ v. map (λ h. owed_by h.promise.0.value) v.items ≡ map owed_by workers.items) }
{
    let mut handles = Vec::new(alloc.clone()?);
    for worker in workers {
        let handle = match start(scope, alloc, shop, worker) {
            Ok(handle) => handle,
            Err(error) => {
                drain(rt, handles);
                return Err(error);
            }
        };
        match handles.push(handle) {
            Ok(()) => {}
            Err(_) => {
                drain(rt, handles);
                return Err(SweepError::Memory);
            }
        }
    }
    Ok(handles)
}

/// Waits for all threads, in their order, and appends what each returns to `parts`, which is empty.
fn join_all<R: Threads, J: Plan, A: Allocator>(
    rt: &R,
    handles: Vec<Running<J, A>, A>,
    mut parts: Vec<Dealt<J, A>, A>,
) -> Result<Vec<Dealt<J, A>, A>, SweepError>
    requires { parts.items ≡ [] }
    ensures { IfOk result (λ v. map given_by v.items ≡ map (λ h. owed_by h.promise.0.value) handles.items) }
{
    let mut refused = false;
    for handle in handles {
        match handle.join(rt) {
            Ok(part) => match parts.push(part) {
                Ok(()) => {}
                Err(_) => refused = true,
            },
            Err(_) => refused = true,
        }
    }
    if refused {
        return Err(SweepError::Memory);
    }
    Ok(parts)
}

/// Starts a thread for each worker, and waits for all that were started, even if one was refused.
fn run_in<
    's,
    E,
    R: Threads,
    J: Plan + Send + Sync + 's,
    A: Allocator + Clone + Send + Sync + Drop + 's,
    G: Gate + Sync,
    S: Stacks,
>(
    rt: &R,
    scope: &Scope<'s, E>,
    alloc: A,
    shop: &Workshop<'s, J, A, G, S>,
    workers: Vec<Worker<J, A>, A>,
) -> Result<Vec<Dealt<J, A>, A>, SweepError>
    requires { CanRun shop.now.study.now J.costs J.cycles shop.now.board.now workers.items }
    ensures { IfOk result (λ v. map given_by v.items ≡ map owed_by workers.items) }
{
    let handles = start_all(rt, scope, &alloc, shop, workers)?;
    join_all(rt, handles, Vec::new(alloc))
}

/// The parts that the workers return, in their order, each from a thread of its own.
pub(crate) fn run_workers<
    R: Threads + Wait + Sync,
    J: Plan + Send + Sync,
    A: Allocator + Clone + Send + Sync + Drop,
    G: Gate + Sync,
    S: Stacks + Sync,
>(
    rt: &R,
    alloc: A,
    study: &Study<A>,
    board: &Board<J, A>,
    workers: Vec<Worker<J, A>, A>,
    gate: &G,
    stacks: &S,
) -> Result<Vec<Dealt<J, A>, A>, SweepError>
    requires { CanRun study.now J.costs J.cycles board.now workers.items }
    ensures { IfOk result (λ v. map given_by v.items ≡ map owed_by workers.items) }
{
    thread::scope(
        thread::scope_env(),
        rt,
        |scope| -> Result<Vec<Dealt<J, A>, A>, SweepError>
            requires { CanRun study.now J.costs J.cycles board.now workers.items }
            ensures { IfOk result (λ v. map given_by v.items ≡ map owed_by workers.items) }
        {
            let shop = Workshop {
                study,
                board,
                gate,
                stacks,
            };
            run_in(rt, scope, alloc, &shop, workers)
        },
    )
}
