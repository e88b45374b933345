//! Sets of numbers below 128, a bit each.

ghost use Rattle.std.specs.Prelude.{ℕ, ◌≡◌, ◌<◌, ◌&&◌, ◌||◌, Decides, not, true, false};
ghost use Rattle.tomex_bus.specs.Sets.{has, IsSingle, IsWith, IsWithout};

use crate::alone::alone;
use crate::halves::{lower, upper, whole};
use crate::small;

/// The set and the number.
#[inline(always)]
pub fn with(set: u128, number: usize) -> u128
    requires { number < 128 }
    ensures { IsWith set number result }
{
    set | alone(number)
}

/// The set, with the number added if `member`. Branch-free.
#[inline(always)]
pub fn with_if(set: u128, number: usize, member: bool) -> u128
    requires { number < 128 }
    ensures comes { member ≡ true → IsWith set number result }
    ensures stays { member ≡ false → result ≡ set }
{
    set | u128::from(member) << number
}

/// The set without the number.
#[inline(always)]
pub fn without(set: u128, number: usize) -> u128
    requires { number < 128 }
    ensures others { IsWithout set number result }
    ensures less { has set number ≡ true → result < set }
{
    set & !alone(number)
}

/// The least member.
#[inline(always)]
pub fn lowest(set: u128) -> usize
    requires { 0 < set }
    ensures below { result < 128 }
    ensures member { has set result ≡ true }
    ensures least { (i : ℕ) → i < result → has set i ≡ false }
{
    let near = lower(set);
    if near != 0 {
        return small::lowest(near);
    }
    64 + small::lowest(upper(set))
}

/// The set without its least member, in fewer operations than `without`.
#[inline(always)]
pub fn without_lowest(set: u128) -> u128
    requires { 0 < set }
    ensures others { (x : ℕ) → has set x ≡ true → ((i : ℕ) → i < x → has set i ≡ false)
        → IsWithout set x result }
    ensures less { result < set }
{
    let near = lower(set);
    if near != 0 {
        return whole(small::without_lowest(near), upper(set));
    }
    whole(0, small::without_lowest(upper(set)))
}

/// True if there is at most one member.
#[inline(always)]
pub fn is_single(set: u128) -> bool
    ensures { Decides result (IsSingle set) }
{
    set == 0 || without_lowest(set) == 0
}

/// The members that both sets have.
#[inline(always)]
pub fn both(a: u128, b: u128) -> u128
    ensures { (x : ℕ) → has result x ≡ (has a x && has b x) }
{
    a & b
}

/// The members of either set.
#[inline(always)]
pub fn union(a: u128, b: u128) -> u128
    ensures { (x : ℕ) → has result x ≡ (has a x || has b x) }
{
    a | b
}

/// The members of the first set that aren't in the second.
#[inline(always)]
pub fn difference(a: u128, b: u128) -> u128
    ensures { (x : ℕ) → x < 128 → has result x ≡ (has a x && not (has b x)) }
{
    a & !b
}
