//! Steps on a deque of rows.

ghost use Rattle.std.specs.Prelude.{◌≡◌, true, false, ◌<◌, IfOk, IfSome, Contains};
ghost use Rattle.crossbeam_deque.specs.Handles.{view, IsPassOf, worker_deque, worker_flavor};
ghost use Rattle.crossbeam_deque.specs.Handles.{stealer_deque, worker_view};
ghost use Rattle.tomex_lanes.specs.Rows.{rows_of};
ghost use Rattle.tomex_lanes.specs.Rule.{Adds, known_list};

use crate::known::Known;
use crate::rule::{Added, OfList, Shared, Taken};
use crossbeam_deque::{Pass, Steal, Stealer, Worker};
use std::alloc::{AllocError, Allocator};

pub(crate) type Owner<A> = Worker<usize, A, Known, OfList>;

pub(crate) type Thief<A> = Stealer<usize, A, Known, OfList>;

pub(crate) type RowPass<A> = Pass<usize, Known, A>;

/// How often a steal that returns `Retry` is tried.
const TRIES: usize = 32;

/// Adds a row at the end of the list.
fn add<A: Allocator>(owner: &mut Owner<A>, row: usize) -> Result<(), AllocError>
    requires { (worker_view owner.old).filling ≡ true }
    ensures same { (worker_deque owner.new ≡ worker_deque owner.old)
        × (worker_flavor owner.new ≡ worker_flavor owner.old) }
    ensures added { IfOk result (λ _. Adds row (worker_view owner.old) (worker_view owner.new)) }
{
    match owner.push_as::<Added>(row) {
        Ok(()) => Ok(()),
        Err(_) => Err(AllocError),
    }
}

/// A pass for a thief. From now on nobody adds rows.
pub(crate) fn share<A: Allocator>(owner: &mut Owner<A>) -> RowPass<A>
    ensures same { (worker_deque owner.new ≡ worker_deque owner.old)
        × (worker_flavor owner.new ≡ worker_flavor owner.old) }
    ensures pass { IsPassOf (worker_deque owner.old) result }
    ensures known { (worker_view owner.new ≡ known_list false (worker_view owner.old).rows)
        × (view result ≡ known_list false (worker_view owner.old).rows) }
{
    owner.another::<Shared>()
}

/// Takes the first row that is left.
pub(crate) fn take<A: Allocator>(owner: &mut Owner<A>) -> Option<usize>
    requires { worker_flavor owner.old ≡ 0 }
    ensures same { (worker_deque owner.new ≡ worker_deque owner.old)
        × (worker_flavor owner.new ≡ worker_flavor owner.old)
        × (worker_view owner.new ≡ worker_view owner.old) }
    ensures row { IfSome result (λ row. Contains (worker_view owner.old).rows row) }
{
    owner.pop_as::<Taken>()
}

/// Takes the first row that is left in another worker's deque.
pub(crate) fn steal<A: Allocator>(thief: &Thief<A>, pass: &mut RowPass<A>) -> Option<usize>
    requires { IsPassOf (stealer_deque thief.now) pass.old }
    ensures same { IsPassOf (stealer_deque thief.now) pass.new × (view pass.new ≡ view pass.old) }
    ensures row { IfSome result (λ row. Contains (view pass.old).rows row) }
{
    for _ in 0..TRIES {
        match thief.steal_as::<Taken>(pass) {
            Steal::Success(row) => return Some(row),
            Steal::Empty => return None,
            Steal::Retry => {}
        }
    }
    None
}

/// A deque of the worker's rows. Its memory is reserved first, so adding rows needs no more.
pub(crate) fn owner_with_rows<A: Allocator + Clone + Drop>(
    alloc: A,
    worker: usize,
    workers: usize,
    count: usize,
) -> Result<Owner<A>, AllocError>
    requires { 0 < workers }
    ensures { IfOk result
        (λ o. (worker_flavor o ≡ 0) × (worker_view o ≡ known_list true (rows_of workers worker count))) }
{
    let mut owner = Owner::fifo_as(alloc, count.div_ceil(workers))?;
    for row in 0..count {
        if row % workers == worker {
            add(&mut owner, row)?;
        }
    }
    Ok(owner)
}
