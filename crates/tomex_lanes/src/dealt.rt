//! The part that each worker returns, and the marks that all parts together give.

ghost use Rattle.std.specs.Prelude.{◌≡◌, ◌<◌, ℕ, [], true, length, All};
ghost use Rattle.tomex_board.specs.Marks.{AreLawful};
ghost use Rattle.tomex_board.specs.Views.{KnowsNotOpen};
ghost use Rattle.tomex_lanes.specs.Parts.{AreWhole, is_closed};

use std::alloc::{Allocator, Global};
use std::marker::Model;
use tomex_board::{Board, Mark, Plan, Seat};

/// A seat with nothing in hand, and a list of rows, each of which the seat noted as not open.
#[derive(Drop)]
pub struct Dealt<J: Plan, A: Allocator = Global> {
    seat: Seat<J>,
    rows: Vec<usize, A>,
}

impl<J: Plan, A: Allocator> Model for Dealt<J, A> {
    ghost use Rattle.std.specs.Prelude.{◌≡◌, [], All};
    ghost use Rattle.tomex_board.specs.Views.{KnowsNotOpen};
    ghost use Rattle.tomex_lanes.specs.Parts.{Returned};

    ghost Value = { Returned };

    ghost view = { λ p. record { seat = p.seat; rows = p.rows.items } };

    ghost invariant = { λ p. (p.seat.view.hand ≡ []) × All (KnowsNotOpen p.seat.view) p.rows.items };
}

impl<J: Plan, A: Allocator> Dealt<J, A> {
    /// The part of this seat and these rows.
    pub fn new(seat: Seat<J>, rows: Vec<usize, A>) -> Dealt<J, A>
        requires hand { seat.view.hand ≡ [] }
        requires noted { All (KnowsNotOpen seat.view) rows.items }
        ensures { result ≡ record { seat = seat; rows = rows.items } }
    {
        Dealt { seat, rows }
    }

    /// Its seat.
    pub fn into_seat(self) -> Seat<J>
        ensures seat { result ≡ self.seat }
        ensures hand { result.view.hand ≡ [] }
        ensures noted { All (KnowsNotOpen result.view) self.rows }
    {
        self.seat
    }
}

/// The marks of all rows, each finished or dropped, if the parts have all rows and all numbers.
/// Allocates nothing.
pub fn settle<J: Plan, A: Allocator>(
    board: Board<J, A>,
    mut parts: Vec<Dealt<J, A>, A>,
) -> Vec<Mark, A>
    requires { AreWhole board (length J.costs) parts.items }
    ensures count { length result.items ≡ length J.costs }
    ensures closed { All (λ m. is_closed m ≡ true) result.items }
    ensures lawful { AreLawful J.costs J.cycles result.items }
{
    let Some(last) = parts.pop() else {
        unreachable!()
    };
    let mut whole = last.into_seat();
    for part in parts {
        whole = board.join(whole, part.into_seat());
    }
    board.close(whole)
}
