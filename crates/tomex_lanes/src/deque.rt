//! Deques of rows, which contracts see as the lists with which they were filled.

ghost use Rattle.std.specs.Prelude.{◌≡◌, ◌<◌, IfOk, IfSome, Contains};
ghost use Rattle.tomex_lanes.specs.Rows.{rows_of};

use crate::owner::{Owner, RowPass, Thief, owner_with_rows, share, steal, take};
use std::alloc::{AllocError, Allocator};
use std::marker::Model;

/// A worker's own deque of rows, first in, first out.
#[derive(Drop)]
pub struct RowDeque<A: Allocator> {
    owner: Owner<A>,
}

impl<A: Allocator> Model for RowDeque<A> {
    ghost use Rattle.std.specs.Prelude.{◌≡◌, ℕ, List};
    ghost use Rattle.crossbeam_deque.specs.Handles.{worker_flavor, worker_view};

    ghost Value = { List ℕ };

    ghost view = { λ d. (worker_view d.owner).rows };

    ghost invariant = { λ d. worker_flavor d.owner ≡ 0 };
}

/// A handle through which another worker steals.
#[derive(Drop)]
pub struct Victim<A: Allocator> {
    thief: Thief<A>,
    pass: RowPass<A>,
}

impl<A: Allocator> Model for Victim<A> {
    ghost use Rattle.std.specs.Prelude.{ℕ, List};
    ghost use Rattle.crossbeam_deque.specs.Handles.{IsPassOf, stealer_deque};
    ghost use Rattle.tomex_lanes.specs.Rule.{pass_rows};

    ghost Value = { List ℕ };

    ghost view = { λ v. pass_rows v.pass };

    ghost invariant = { λ v. IsPassOf (stealer_deque v.thief) v.pass };
}

impl<A: Allocator> RowDeque<A> {
    /// The deque of a worker, with all its rows in ascending order.
    pub fn with_rows(
        alloc: A,
        worker: usize,
        workers: usize,
        count: usize,
    ) -> Result<RowDeque<A>, AllocError>
    where
        A: Clone + Drop,
        requires { 0 < workers }
        ensures { IfOk result (λ d. d ≡ rows_of workers worker count) }
    {
        let owner = owner_with_rows(alloc, worker, workers, count)?;
        Ok(RowDeque { owner })
    }

    /// A handle through which one other worker steals from this deque.
    pub fn victim(&mut self) -> Result<Victim<A>, AllocError>
        ensures same { self.new ≡ self.old }
        ensures list { IfOk result (λ v. v ≡ self.old) }
    {
        let thief = self.owner.stealer()?;
        let pass = share(&mut self.owner);
        Ok(Victim { thief, pass })
    }

    /// Takes the first row that is left. `None` if there is none.
    pub fn take(&mut self) -> Option<usize>
        ensures same { self.new ≡ self.old }
        ensures row { IfSome result (λ row. Contains self.old row) }
    {
        take(&mut self.owner)
    }
}

impl<A: Allocator> Victim<A> {
    /// Takes the first row that is left. `None` if there is none, or if 32 tries in a row met
    /// another worker's step.
    pub fn steal(&mut self) -> Option<usize>
        ensures same { self.new ≡ self.old }
        ensures row { IfSome result (λ row. Contains self.old row) }
    {
        steal(&self.thief, &mut self.pass)
    }
}
