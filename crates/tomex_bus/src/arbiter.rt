//! The oldest of the ready operations.

ghost use Rattle.std.specs.Prelude.{ℕ, ◌≡◌, ◌≢◌, ◌<◌, ◌≤◌, true, slice_index};
ghost use Rattle.tomex_bus.specs.Sets.{has};
ghost use Rattle.tomex_bus.specs.Picks.{IsPicked};

use crate::sets::{is_single, lowest, with, without, without_lowest};

/// The member that issued first.
#[inline(always)]
pub fn oldest(set: u128, issue_numbers: &[u32; 128]) -> usize
    requires { 0 < set }
    ensures below { result < 128 }
    ensures member { has set result ≡ true }
    ensures least { (i : ℕ) → i < 128 → has set i ≡ true
        → slice_index issue_numbers.now result ≤ slice_index issue_numbers.now i }
{
    let mut best = lowest(set);
    let mut rest = without_lowest(set);
    'members: while rest != 0 {
        let number = lowest(rest);
        rest = without_lowest(rest);
        if issue_numbers[number] < issue_numbers[best] {
            best = number;
        }
    }
    best
}

/// The n oldest of the ready ones, by one search after another.
///
/// Usually at most one is ready and `pick` returns at once; this is kept out of line so that it
/// costs its caller no registers.
#[inline(never)]
fn pick_in_order(ready: u128, issue_numbers: &[u32; 128], n: u8) -> u128
    ensures picked { IsPicked ready issue_numbers.now n result }
    ensures some { 0 < n → ready ≢ 0 → result ≢ 0 }
{
    let mut rest = ready;
    let mut picked = 0;
    for turn in 0..n {
        if rest == 0 {
            return picked;
        }
        let number = oldest(rest, issue_numbers);
        rest = without(rest, number);
        picked = with(picked, number);
    }
    picked
}

/// The n oldest of the ready ones, or all of them if there are no more than n.
///
/// The issue order is given by numbers: how many instructions had issued before. No two
/// instructions of a machine have the same number; if two had, either could be served. It serves
/// units, memory ports and common data buses.
#[inline(always)]
pub fn pick(ready: u128, issue_numbers: &[u32; 128], n: u8) -> u128
    ensures picked { IsPicked ready issue_numbers.now n result }
    ensures some { 0 < n → ready ≢ 0 → result ≢ 0 }
{
    if n > 0 && is_single(ready) {
        return ready;
    }
    pick_in_order(ready, issue_numbers, n)
}
