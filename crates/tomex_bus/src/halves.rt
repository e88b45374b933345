//! A set of numbers below 128 as two sets of 64 numbers each: an operation on 128 bits takes
//! several instructions, one on 64 takes one.

ghost use Rattle.std.specs.Prelude.{◌≡◌, ◌+◌, ◌*◌, ◌/◌, ◌%◌, ◌^◌};

/// The members below 64.
#[inline(always)]
pub(crate) fn lower(set: u128) -> u64
    ensures { result ≡ set % 2 ^ 64 }
{
    (set % (1 << 64)) as u64
}

/// The members from 64 on, each reduced by 64.
#[inline(always)]
pub(crate) fn upper(set: u128) -> u64
    ensures { result ≡ set / 2 ^ 64 }
{
    (set >> 64) as u64
}

/// The set of these two halves.
#[inline(always)]
pub(crate) fn whole(lower: u64, upper: u64) -> u128
    ensures { result ≡ 2 ^ 64 * upper + lower }
{
    (1 << 64) * u128::from(upper) + u128::from(lower)
}
