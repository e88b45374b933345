//! A run by its stretches.

use crate::counts::Entry;
use crate::distances::{add_row, distance_from};
use std::alloc::{AllocError, Allocator};

/// A run's stretches: how many steps of each are at each word of the window, and how many steps the part has that
/// begins with it, if that has an end.
#[derive(Drop)]
pub(crate) struct Stretches<A: Allocator> {
    pub(crate) steps: u32,
    pub(crate) words: usize,
    pub(crate) rows: Vec<Vec<Entry, A>, A>,
    pub(crate) parts: Vec<Option<u32>, A>,
}

impl<A: Allocator> Stretches<A> {
    ghost use Rattle.std.specs.Prelude.{◌≡◌, ◌*◌, ◌<◌, ◌^◌, ℕ, IfOk, length, slice_index};
    ghost use Rattle.tomex_samples.specs.Leaders.{counts_at, distance};
    ghost use Rattle.tomex_samples.specs.Numbers.{sum_below};
    ghost use Rattle.tomex_samples.specs.Stretches.{Run};
    ghost use Rattle.tomex_samples.specs.Tallied.{AreOf};

    /// How many steps of a stretch are at each word.
    pub(crate) fn counts_at(&self, alloc: A, stretch: usize) -> Result<Vec<u64, A>, AllocError>
        requires shown { (run : Run) × AreOf run self.now }
        requires inside { stretch < length self.now.parts.items }
        ensures { IfOk result (λ v. (run : Run) → AreOf run self.now → v.items ≡ counts_at run stretch) }
    {
        let mut counts = vec![in alloc; 0; self.words]?;
        add_row(&mut counts, &self.rows[stretch]);
        Ok(counts)
    }

    /// The distance of a stretch's counts, times a factor, from sums that are as great together.
    pub(crate) fn distance(&self, stretch: usize, times: u64, sums: &[u64]) -> u64
        requires shown { (run : Run) × AreOf run self.now }
        requires inside { stretch < length self.now.parts.items }
        requires words { length sums.now ≡ self.now.words }
        requires sum { sum_below (λ w. slice_index sums.now w) (length sums.now) ≡ times * self.now.steps }
        requires few { times < 2 ^ 30 }
        ensures value { (run : Run) → AreOf run self.now → result ≡ distance times (counts_at run stretch) sums.now }
        ensures small { result < 2 ^ 63 }
    {
        distance_from(&self.rows[stretch], times, self.steps, sums)
    }
}
