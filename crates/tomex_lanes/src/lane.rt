//! Lanes, from which workers take their rows.

ghost use Rattle.std.specs.Prelude.{◌≡◌, ◌<◌, IfOk, IfSome, OnOk};
ghost use Rattle.tomex_lanes.specs.Rows.{rows_of};
ghost use Rattle.tomex_lanes.specs.Lanes.{AreBelow, IsListed, lane_of, with_other};

use crate::deque::{RowDeque, Victim};
use std::alloc::{AllocError, Allocator};
use std::marker::Model;

/// A worker's number, the list of its rows, its own deque with them, and a handle for stealing from
/// each other worker, the next one first.
#[derive(Drop)]
pub struct Lane<A: Allocator> {
    worker: usize,
    /// The number of rows of all workers together.
    count: usize,
    rows: Vec<usize, A>,
    own: RowDeque<A>,
    others: Vec<Victim<A>, A>,
}

impl<A: Allocator> Model for Lane<A> {
    ghost use Rattle.std.specs.Prelude.{◌≡◌, All};
    ghost use Rattle.tomex_lanes.specs.Lanes.{Dealt, AreBelow};

    ghost Value = { Dealt };

    ghost view = { λ l. record { worker = l.worker; count = l.count; rows = l.rows.items; others = l.others.items } };

    ghost invariant = { λ l.
        (l.own ≡ l.rows.items)
        × AreBelow l.count l.rows.items
        × All (λ rows. AreBelow l.count rows) l.others.items };
}

/// The rows of a worker, in ascending order.
fn rows_of<A: Allocator>(
    alloc: A,
    worker: usize,
    workers: usize,
    count: usize,
) -> Result<Vec<usize, A>, AllocError>
    requires { 0 < workers }
    ensures { IfOk result (λ v. v.items ≡ rows_of workers worker count) }
{
    let mut rows = Vec::new(alloc);
    for row in 0..count {
        if row % workers == worker {
            rows.push(row)?;
        }
    }
    Ok(rows)
}

impl<A: Allocator> Lane<A> {
    /// A lane without workers to steal from.
    pub(crate) fn new(
        alloc: A,
        worker: usize,
        workers: usize,
        count: usize,
    ) -> Result<Lane<A>, AllocError>
    where
        A: Clone + Drop,
        requires { 0 < workers }
        ensures { IfOk result (λ l. l ≡ lane_of workers worker count 0) }
    {
        let own = RowDeque::with_rows(alloc.clone()?, worker, workers, count)?;
        let others = Vec::new(alloc.clone()?);
        let rows = rows_of(alloc, worker, workers, count)?;
        Ok(Lane {
            worker,
            count,
            rows,
            own,
            others,
        })
    }

    /// A handle through which another worker steals from this one.
    pub(crate) fn victim(&mut self) -> Result<Victim<A>, AllocError>
        ensures same { self.new ≡ self.old }
        ensures list { IfOk result (λ v. v ≡ self.old.rows) }
        ensures below { IfOk result (λ v. AreBelow self.old.count v) }
    {
        self.own.victim()
    }

    /// Adds a worker to steal from, after the others.
    pub(crate) fn add_victim(&mut self, victim: Victim<A>) -> Result<(), AllocError>
        requires { AreBelow self.old.count victim }
        ensures { OnOk result (self.new ≡ with_other self.old victim) }
    {
        self.others.push(victim)?;
        Ok(())
    }

    /// The worker's number, from 0.
    pub fn worker(&self) -> usize
        ensures { result ≡ self.now.worker }
    {
        self.worker
    }

    /// The number of rows of all workers together.
    pub fn count(&self) -> usize
        ensures { result ≡ self.now.count }
    {
        self.count
    }

    /// The rows that were dealt to the worker, in ascending order, also those that were taken since.
    pub fn rows(&self) -> &[usize]
        ensures value { result.now ≡ self.now.rows }
        ensures below { AreBelow self.now.count self.now.rows }
    {
        self.rows.as_slice()
    }

    /// These rows, when the lane is no longer needed.
    pub fn into_rows(self) -> Vec<usize, A>
        ensures value { result.items ≡ self.rows }
    {
        self.rows
    }

    /// Takes a row: the first that is left in the worker's own deque, else one that is stolen.
    /// `None` after one round of all others without success.
    pub fn take(&mut self) -> Option<usize>
        ensures same { self.new ≡ self.old }
        ensures row { IfSome result (λ row. row < self.old.count) }
        ensures list { IfSome result (λ row. IsListed self.old row) }
    {
        if let Some(row) = self.own.take() {
            return Some(row);
        }
        for k in 0..self.others.len() {
            if let Some(row) = self.others[k].steal() {
                return Some(row);
            }
        }
        None
    }
}
