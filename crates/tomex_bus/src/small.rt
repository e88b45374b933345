//! Sets of numbers below 64, a bit each: the places of a ring, and the numbers of a pool. Shifting
//! 64 bits takes one operation, shifting 128 bits several.

ghost use Rattle.std.specs.Prelude.{ℕ, ◌≡◌, ◌<◌, ◌≤◌, ◌+◌, ◌*◌, true, false};
ghost use Rattle.tomex_bus.specs.Sets.{has, IsWith, IsWithout};

use crate::halves::{lower, upper};

/// The set and the number.
#[inline(always)]
pub fn with(set: u64, number: usize) -> u64
    requires { number < 64 }
    ensures { IsWith set number result }
{
    set | 1 << number
}

/// The set without the number.
#[inline(always)]
pub fn without(set: u64, number: usize) -> u64
    requires { number < 64 }
    ensures { IsWithout set number result }
{
    set & !(1 << number)
}

/// The least member.
#[inline(always)]
pub fn lowest(set: u64) -> usize
    requires { 0 < set }
    ensures below { result < 64 }
    ensures member { has set result ≡ true }
    ensures least { (i : ℕ) → i < result → has set i ≡ false }
{
    set.trailing_zeros() as usize
}

/// The set without its least member.
#[inline(always)]
pub(crate) fn without_lowest(set: u64) -> u64
    requires { 0 < set }
    ensures others { (x : ℕ) → has set x ≡ true → ((i : ℕ) → i < x → has set i ≡ false)
        → IsWithout set x result }
    ensures less { result < set }
{
    set & (set - 1)
}

/// The members of a wider set in one of its eight groups of 16, by their numbers in the group.
#[inline(always)]
pub fn in_group(set: u128, group: usize) -> u64
    requires { group < 8 }
    ensures { (n : ℕ) → n < 16 → has result n ≡ has set (16 * group + n) }
{
    let half = if group < 4 { lower(set) } else { upper(set) };
    half >> (16 * (group % 4))
}

/// The least number below 16 that isn't in the set; 16 if all are.
#[inline(always)]
pub fn least_absent(set: u64) -> usize
    ensures below { result ≤ 16 }
    ensures absent { result < 16 → has set result ≡ false }
    ensures least { (i : ℕ) → i < result → has set i ≡ true }
{
    lowest(with(!set, 16))
}
