//! Workers before they start.

ghost use Rattle.std.specs.Prelude.{◌≡◌, ◌≤◌, [], map, length, IfOk};
ghost use Rattle.std.specs.List.{range_with_len};
ghost use Rattle.tomex_board.specs.Views.{first_view};
ghost use Rattle.tomex_lanes.specs.Parts.{AreSeated};

use crate::lane::Lane;
use std::alloc::{AllocError, Allocator, Global};
use std::marker::Model;
use tomex_board::{Board, Plan, Seat};

/// A worker's lane, and its seat of the board.
#[derive(Drop)]
pub struct Worker<J: Plan, A: Allocator = Global> {
    pub lane: Lane<A>,
    pub seat: Seat<J>,
}

impl<J: Plan, A: Allocator> Model for Worker<J, A> {
    ghost use Rattle.tomex_lanes.specs.Parts.{Equipped};

    ghost Value = { Equipped };

    ghost view = { λ w. record { lane = w.lane; seat = w.seat } };
}

/// A worker for each lane, with seats that are split from a board's first one. Together they have all
/// of its numbers.
pub fn seat_workers<J: Plan, A: Allocator>(
    alloc: A,
    board: &Board<J, A>,
    seat: Seat<J>,
    lanes: Vec<Lane<A>, A>,
) -> Result<Vec<Worker<J, A>, A>, AllocError>
    requires board { seat.board ≡ board.now }
    requires first { seat.view ≡ first_view }
    requires some { 1 ≤ length lanes.items }
    requires few { length lanes.items ≤ 32 }
    ensures lanes { IfOk result (λ v. map (λ w. w.lane) v.items ≡ lanes.items) }
    ensures seats { IfOk result (λ v. AreSeated board.now (map (λ w. w.seat) v.items)) }
{
    let count = lanes.len();
    let mut workers = Vec::new(alloc);
    let mut lanes = lanes.into_iter();
    let mut own = seat;
    for _ in 1..count {
        let Some(lane) = lanes.next() else {
            unreachable!()
        };
        let (kept, seat) = board.split(own);
        workers.push(Worker { lane, seat })?;
        own = kept;
    }
    let Some(lane) = lanes.next() else {
        unreachable!()
    };
    workers.push(Worker { lane, seat: own })?;
    Ok(workers)
}
