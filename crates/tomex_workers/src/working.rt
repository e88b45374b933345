//! A worker's whole body.

ghost use Rattle.std.specs.Prelude.{◌≡◌, [], length, IfOk};
ghost use Rattle.tomex_workers.specs.Plans.{IsPlanOf};

use crate::desk::Desk;
use std::alloc::{AllocError, Allocator};
use tomex_board::{Board, Plan, Seat};
use tomex_lanes::{Dealt, Lane};
use tomex_study::{Gate, Study};

/// Does a worker's whole work: takes rows until there are none, its own first, then stolen ones,
/// and runs and closes each one that it claims. Then it tries each row of its own list again, so
/// that none of them is open when it ends.
pub fn work<J: Plan, A: Allocator + Clone, G: Gate>(
    alloc: A,
    study: &Study<A>,
    board: &Board<J, A>,
    mut seat: Seat<J>,
    mut lane: Lane<A>,
    gate: &G,
) -> Result<Dealt<J, A>, AllocError>
    requires board { seat.board ≡ board.now }
    requires plan { IsPlanOf study.now J.costs J.cycles }
    requires rows { lane.count ≡ length J.costs }
    requires hand { seat.view.hand ≡ [] }
    ensures rows { IfOk result (λ p. p.rows ≡ lane.rows) }
    ensures board { IfOk result (λ p. p.seat.board ≡ seat.board) }
    ensures share { IfOk result (λ p. p.seat.view.share ≡ seat.view.share) }
{
    let worker = lane.worker();
    let desk = Desk {
        study,
        board,
        gate,
        worker,
    };
    desk.try_all(alloc, &mut seat, &mut lane)?;
    Ok(Dealt::new(seat, lane.into_rows()))
}
