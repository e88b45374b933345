//! Distances of stretches, from the entries of one and the counts of another at each word.

ghost use Rattle.std.specs.Prelude.{◌≡◌, ◌+◌, ◌*◌, ◌<◌, ◌^◌, ℕ, List, length, slice_index};
ghost use Rattle.tomex_samples.specs.Counts.{IsSparse};
ghost use Rattle.tomex_samples.specs.Distances.{AreAdded, common};
ghost use Rattle.tomex_samples.specs.Leaders.{distance};
ghost use Rattle.tomex_samples.specs.Numbers.{sum_below};
ghost use Rattle.tomex_samples.specs.Tally.{IsRow};

use crate::counts::Entry;

/// What the counts of a row, times a factor, and others have in common.
fn common_with(row: &[Entry], times: u64, sums: &[u64]) -> u64
    requires { (counts : List ℕ) × IsSparse row.now counts × (length counts ≡ length sums.now)
        × (times * sum_below (λ w. slice_index counts w) (length sums.now) < 2 ^ 63) }
    ensures { (counts : List ℕ) → IsSparse row.now counts → length counts ≡ length sums.now
        → result ≡ common times counts sums.now }
{
    let mut common: u64 = 0;
    for entry in row {
        common += (times * u64::from(entry.count)).min(sums[entry.word as usize]);
    }
    common
}

/// Adds the counts of a row to sums.
pub(crate) fn add_row(sums: &mut [u64], row: &[Entry])
    requires { (counts : List ℕ) × IsSparse row.now counts × (length counts ≡ length sums.old)
        × ((w : ℕ) → slice_index sums.old w + slice_index counts w < 2 ^ 64) }
    ensures { (counts : List ℕ) → IsSparse row.now counts → length counts ≡ length sums.old
        → AreAdded counts sums.old sums.new }
{
    for entry in row {
        sums[entry.word as usize] += u64::from(entry.count);
    }
}

/// The distance of the counts of a row, times a factor, from sums that are as great together.
pub(crate) fn distance_from(row: &[Entry], times: u64, steps: u32, sums: &[u64]) -> u64
    requires row { (counts : List ℕ) × IsRow steps (length sums.now) row.now counts }
    requires sums { sum_below (λ w. slice_index sums.now w) (length sums.now) ≡ times * steps }
    requires few { times < 2 ^ 30 }
    ensures value { (counts : List ℕ) → IsRow steps (length sums.now) row.now counts
        → result ≡ distance times counts sums.now }
    ensures small { result < 2 ^ 63 }
{
    2 * (times * u64::from(steps) - common_with(row, times, sums))
}
