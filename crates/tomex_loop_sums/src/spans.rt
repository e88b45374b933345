//! Sums over the steps of a run that are in spans.

ghost use Rattle.std.specs.Prelude.{◌≡◌, ◌+◌, ◌<◌, ◌≤◌, ◌^◌, ℕ, All, IfOk, length, slice_index, sum, take};
ghost use Rattle.std.specs.List.Sorted.{IsNonDecreasingBy};
ghost use Rattle.tomex_loop_sums.specs.Spans.{sum_in};

use std::alloc::{AllocError, Allocator};

/// Steps of a run that have a key: from one on, and before another.
#[derive(Clone, Copy)]
pub struct Span {
    pub key: u32,
    pub from: u32,
    pub to: u32,
}

/// The sums of the first numbers: of none, of one, of two, up to that of all.
fn sums_of_first<A: Allocator>(alloc: A, numbers: &[u64]) -> Result<Vec<u64, A>, AllocError>
    requires { sum numbers.now < 2 ^ 63 }
    ensures count { IfOk result (λ sums. length sums.items ≡ length numbers.now + 1) }
    ensures sums { IfOk result (λ sums. (k : ℕ) → k ≤ length numbers.now
        → slice_index sums.items k ≡ sum (take k numbers.now)) }
{
    let mut sums = Vec::new(alloc);
    let mut sum = 0;
    sums.push(0)?;
    for number in numbers {
        sum += *number;
        sums.push(sum)?;
    }
    Ok(sums)
}

/// For each of `count` keys the sum of the numbers of those steps that are in a span with that key. A step that is in
/// two spans of one key counts once. The spans come in order of their first steps.
pub fn sums_in_spans<A: Allocator + Clone>(
    alloc: A,
    count: usize,
    spans: &[Span],
    numbers: &[u64],
) -> Result<Vec<u64, A>, AllocError>
    requires few { sum numbers.now < 2 ^ 63 }
    requires keys { All (λ span. span.key < count) spans.now }
    requires spans { All (λ span. span.from ≤ span.to) spans.now }
    requires within { All (λ span. span.to ≤ length numbers.now) spans.now }
    requires order { IsNonDecreasingBy (λ span. span.from) spans.now }
    ensures count { IfOk result (λ sums. length sums.items ≡ count) }
    ensures sums { IfOk result (λ sums. (n : ℕ) → n < count
        → slice_index sums.items n ≡ sum_in n spans.now numbers.now) }
{
    let first = sums_of_first(alloc.clone()?, numbers)?;
    let mut ends = vec![in alloc.clone()?; 0; count]?;
    let mut sums = vec![in alloc; 0; count]?;
    for span in spans {
        let key = span.key as usize;
        let end = ends[key];
        let start = span.from.max(end).min(span.to);
        sums[key] += first[span.to as usize] - first[start as usize];
        ends[key] = span.to.max(end);
    }
    Ok(sums)
}
