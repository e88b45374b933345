//! The visits of a run, by the loops that they are of.

ghost use Rattle.std.specs.Prelude.{◌≡◌, ◌<◌, All, IfOk, IfSome, length, map, slice_index};
ghost use Rattle.std.specs.Option.{option_map};
ghost use Rattle.tomex_loop_sums.specs.ByLoop.{loops_of, spans_by};

use crate::spans::Span;
use std::alloc::{AllocError, Allocator};
use tomex_loops::Visit;

/// The number of each visit's loop.
pub fn loops_of<A: Allocator>(alloc: A, visits: &[Visit]) -> Result<Vec<u32, A>, AllocError>
    ensures { IfOk result (λ v. v.items ≡ loops_of visits.now) }
{
    let mut loops = Vec::new(alloc);
    for visit in visits {
        loops.push(visit.number)?;
    }
    Ok(loops)
}

/// The innermost visit around each in its own call.
pub fn within_of<A: Allocator>(
    alloc: A,
    visits: &[Visit],
) -> Result<Vec<Option<u32>, A>, AllocError>
    ensures { IfOk result (λ v. v.items ≡ map (λ visit. visit.within) visits.now) }
{
    let mut within = Vec::new(alloc);
    for visit in visits {
        within.push(visit.within)?;
    }
    Ok(within)
}

/// What a visit has, if there is one: a value of each visit is given.
fn value_of(values: &[u32], visit: Option<u32>) -> Option<u32>
    requires { IfSome visit (λ v. v < length values.now) }
    ensures { result ≡ option_map (slice_index values.now) visit }
{
    Some(values[visit? as usize])
}

/// The values of some visits, of which there may be none: those of all visits are given.
pub fn values_of<A: Allocator>(
    alloc: A,
    values: &[u32],
    visits: &[Option<u32>],
) -> Result<Vec<Option<u32>, A>, AllocError>
    requires { All (λ visit. IfSome visit (λ v. v < length values.now)) visits.now }
    ensures { IfOk result (λ v. v.items ≡ map (option_map (slice_index values.now)) visits.now) }
{
    let mut found = Vec::new(alloc);
    for visit in visits {
        found.push(value_of(values, *visit))?;
    }
    Ok(found)
}

/// The steps that are in each visit, by its loop, of a run of `count` steps.
pub fn spans_of<A: Allocator>(
    alloc: A,
    visits: &[Visit],
    ends: &[Option<u32>],
    count: u32,
) -> Result<Vec<Span, A>, AllocError>
    requires { length ends.now ≡ length visits.now }
    ensures { IfOk result (λ v. v.items ≡ spans_by count visits.now ends.now) }
{
    let mut spans = Vec::new(alloc);
    for v in 0..visits.len() {
        spans.push(Span {
            key: visits[v].number,
            from: visits[v].first,
            to: ends[v].unwrap_or(count),
        })?;
    }
    Ok(spans)
}
