//! What each step has of a run's cycles.

ghost use Rattle.std.specs.Prelude.{◌≡◌, ◌<◌, ◌^◌, List, IfOk, map, reverse};
ghost use Rattle.tomex_timing.specs.declared.times.Done.{Done};
ghost use Rattle.tomex_timing.specs.Search.{total_of};
ghost use Rattle.tomex_stretches.specs.Cycles.{own_cycles};

use std::alloc::{AllocError, Allocator};
use tomex_timing::Times;
use tomex_timing::evaluate::total;

/// The cycles of each step of a run with these times: each cycle is the step's that issued last. They add up to the
/// run's cycles.
pub fn own_cycles<A: Allocator>(alloc: A, times: &[Times]) -> Result<Vec<u64, A>, AllocError>
    requires { total_of times.now < 2 ^ 63 }
    ensures { IfOk result (λ v. (h : List Done) → times.now ≡ map (λ d. d.at) (reverse h)
        → v.items ≡ reverse (own_cycles h)) }
{
    let mut cycles = Vec::new(alloc);
    let mut next = total(times) + 1;
    let count = times.len();
    for passed in 0..count {
        let issue = times[count - 1 - passed].issue;
        cycles.push(next.saturating_sub(issue))?;
        next = issue;
    }
    cycles.reverse();
    Ok(cycles)
}
