//! What no contract of a board says: a new one is open and empty, and a few calls on it return
//! these results.

ghost use Rattle.std.specs.Prelude.{◌≡◌, [], IfOk};

mod threads;

use std::alloc::{AllocError, Global};
use std::test::Fail;
use tomex_board::{Board, Mark, Plan, Seat};

/// Two rows, of costs 5 and 9, that take 2,000 and 6,500 cycles.
pub struct TwoRows;

impl Plan for TwoRows {
    ghost use Rattle.std.specs.Prelude.{◌∷◌, []};

    ghost costs = { 5 ∷ 9 ∷ [] };

    ghost cycles = { 2000 ∷ 6500 ∷ [] };
}

/// A board of two rows with two seats.
pub fn two_seats(
    alloc: Global,
) -> Result<(Board<TwoRows>, Seat<TwoRows>, Seat<TwoRows>), AllocError>
    ensures boards { IfOk result (λ t. (t.1.board ≡ t.0) × (t.2.board ≡ t.0)) }
    ensures hands { IfOk result (λ t. (t.1.view.hand ≡ []) × (t.2.view.hand ≡ [])) }
{
    let (board, seat) = Board::<TwoRows, Global>::new(alloc, &[5, 9])?;
    let (first, second) = board.split(seat);
    Ok((board, first, second))
}

/// True if a row that was claimed can't be claimed again, and nothing judges the other one.
fn is_taken_once(alloc: Global) -> Result<bool, AllocError> {
    let (board, mut seat) = Board::<TwoRows, Global>::new(alloc, &[5, 9])?;
    let is_claimed = board.claim(&mut seat, 0);
    let is_again = board.claim(&mut seat, 0);
    Ok(is_claimed && !is_again && board.look(&mut seat, 1).is_none())
}

/// The marks after row 0 finished in 2,000 cycles, and row 1 was given up by it.
fn dropped(alloc: Global) -> Result<Vec<Mark>, AllocError> {
    let (board, mut seat) = Board::<TwoRows, Global>::new(alloc, &[5, 9])?;
    if board.claim(&mut seat, 0) {
        board.finish(&mut seat, 0, 2_000);
        give_up_by_row_0(&board, &mut seat);
    }
    Ok(board.close(seat))
}

/// Gives row 1 up if it can be claimed, and if row 0 judges it.
fn give_up_by_row_0(board: &Board<TwoRows>, seat: &mut Seat<TwoRows>)
    requires board { seat.old.board ≡ board.now }
    ensures board { seat.new.board ≡ seat.old.board }
{
    if let Some(bound) = board.look(seat, 1) {
        if bound.cycles == 2_000 && board.claim(seat, 1) {
            board.give_up(seat, 1, bound, 2_048);
        }
    }
}

#[test]
fn a_row_is_dropped(rt: HostRuntime) -> Result<(), Fail> {
    assert!(rt; is_taken_once(rt.alloc())?);
    let marks = dropped(rt.alloc())?;
    assert!(rt; marks.as_slice() == [Mark::Finished(2_000), Mark::Dropped(0)].as_slice());
    Ok(())
}

#[test]
fn a_new_board_is_open(rt: HostRuntime) -> Result<(), Fail> {
    let (board, seat) = Board::<TwoRows, Global>::new(rt.alloc(), &[5, 9])?;
    assert!(rt; board.close(seat).as_slice() == [Mark::Open; 2].as_slice());
    Ok(())
}

#[test]
fn a_dropped_seat_leaves_its_row_taken(rt: HostRuntime) -> Result<(), Fail> {
    let (board, a, mut b) = two_seats(rt.alloc())?;
    let is_claimed = board.claim(&mut b, 0);
    drop(b);
    let marks = board.close(a);
    assert!(rt; is_claimed && marks.as_slice() == [Mark::Taken, Mark::Open].as_slice());
    Ok(())
}
