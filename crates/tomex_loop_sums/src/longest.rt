//! The longest visit of each loop.

ghost use Rattle.std.specs.Prelude.{◌≡◌, ◌<◌, ◌^◌, ℕ, All, IfOk, IfSome, if◌then◌else◌, length, slice_index_or};
ghost use Rattle.tomex_loop_sums.specs.Longest.{IsLongest, is_longer};

use std::alloc::{AllocError, Allocator};

/// The longer of a visit and the longest before it, if there is one.
fn longer_of(rounds: &[u32], visit: u32, longest: Option<u32>) -> Option<u32>
    requires visit { visit < length rounds.now }
    requires longest { IfSome longest (λ u. u < length rounds.now) }
    ensures { result ≡ (if is_longer rounds.now visit longest then Some visit else longest) }
{
    match longest {
        Some(before) if rounds[before as usize] >= rounds[visit as usize] => longest,
        _ => Some(visit),
    }
}

/// For each of `count` loops its visit with the most rounds, the first of several; none for a loop without a visit.
/// `loops` has the number of each visit's loop, `rounds` how many rounds it has.
pub fn longest_of<A: Allocator + Clone>(
    alloc: A,
    count: usize,
    loops: &[u32],
    rounds: &[u32],
) -> Result<Vec<Option<u32>, A>, AllocError>
    requires loops { All (λ n. n < count) loops.now }
    requires pairs { length loops.now ≡ length rounds.now }
    requires few { length loops.now < 2 ^ 32 }
    ensures count { IfOk result (λ longest. length longest.items ≡ count) }
    ensures longest { IfOk result (λ longest. (n : ℕ) → n < count
        → IsLongest n loops.now rounds.now (slice_index_or longest.items n None)) }
{
    let mut longest = vec![in alloc; None; count]?;
    for v in 0..loops.len() {
        let n = loops[v] as usize;
        longest[n] = longer_of(rounds, v as u32, longest[n]);
    }
    Ok(longest)
}
