//! Two threads on one board, each with a seat. No call waits: the turns are the tests' own.

ghost use Rattle.std.specs.Prelude.{◌≡◌, length, IfOk};
ghost use Rattle.tomex_board.specs.Plans.{IsPlan};

use super::{TwoRows, two_seats};
use std::alloc::{AllocError, Global};
use std::marker::Brand;
use std::sync::atomic::{AtomicU64, Ordering};
use std::test::Fail;
use std::thread;
use std::thread::{Threads, join};
use tomex_board::{Board, Bound, Plan, Seat};

/// The most turns that a thread waits for another.
const TURNS: u32 = 10_000_000;

/// Claims every row, upwards or downwards. The number of claims that succeeded.
fn claim_all<J: Plan>(board: &Board<J>, mut seat: Seat<J>, rows: usize, upwards: bool) -> u32
    requires board { seat.board ≡ board.now }
    requires rows { rows ≡ length J.costs }
{
    let mut won = 0u32;
    for k in 0..rows {
        let i = if upwards { k } else { rows - 1 - k };
        if board.claim(&mut seat, i) {
            won = won.wrapping_add(1);
        }
    }
    won
}

/// The number of claims that succeeded, if two threads claim all rows.
fn won_by_both<J: Plan + Send + Sync, R: Threads + Sync>(
    rt: &R,
    alloc: Global,
    costs: &[u64],
) -> Result<u32, AllocError>
    requires costs { costs.now ≡ J.costs }
    requires plan { IsPlan J.costs J.cycles }
{
    let (board, seat) = Board::<J, Global>::new(alloc, costs)?;
    let (a, b) = board.split(seat);
    let (shared, rows) = (&board, costs.len());
    let (up, down) = join(
        rt,
        move || claim_all(shared, a, rows, true),
        move || claim_all(shared, b, rows, false),
    );
    Ok(up.wrapping_add(down))
}

/// Rows that all cost 7.
fn alike(alloc: Global, rows: usize) -> Result<Vec<u64>, AllocError>
    ensures { IfOk result (λ v. length v.items ≡ rows) }
{
    let costs = vec![in alloc; 7u64; rows]?;
    Ok(costs)
}

#[test]
fn each_row_is_claimed_once(rt: HostRuntime) -> Result<(), Fail> {
    let costs = alike(rt.alloc(), 16_384)?;
    assert!(rt; won_by_both::<Brand, _>(&rt, rt.alloc(), costs.as_slice())? == 16_384);
    Ok(())
}

/// Reports that it began, and looks until something was published that may judge row 1.
fn look_until(board: &Board<TwoRows>, mut seat: Seat<TwoRows>, began: &AtomicU64) -> Option<Bound>
    requires board { seat.board ≡ board.now }
{
    began.store(1, Ordering::SeqCst);
    for _ in 0..TURNS {
        if let Some(bound) = board.look(&mut seat, 1) {
            return Some(bound);
        }
        thread::yield_now();
    }
    None
}

/// Waits until the other began, and finishes row 0.
fn finish_after(board: &Board<TwoRows>, mut seat: Seat<TwoRows>, began: &AtomicU64) -> bool
    requires board { seat.board ≡ board.now }
{
    for _ in 0..TURNS {
        if began.load(Ordering::SeqCst) == 1 {
            break;
        }
        thread::yield_now();
    }
    if !board.claim(&mut seat, 0) {
        return false;
    }
    board.finish(&mut seat, 0, 2_000);
    true
}

#[test]
fn a_publishing_is_seen_from_another_thread(rt: HostRuntime) -> Result<(), Fail> {
    let (board, a, b) = two_seats(rt.alloc())?;
    let began = AtomicU64::new(0);
    let (shared, flag) = (&board, &began);
    let (finished, bound) = join(
        &rt,
        move || finish_after(shared, a, flag),
        move || look_until(shared, b, flag),
    );
    let published = Bound {
        cycles: 2_000,
        row: 0,
    };
    assert!(rt; finished && bound == Some(published));
    Ok(())
}
