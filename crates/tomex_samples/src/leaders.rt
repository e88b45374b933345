//! Leaders of a run's stretches that are far from each other.

ghost use Rattle.std.specs.Prelude.{◌≡◌, ◌<◌, ◌^◌, ◌∷◌, ℕ, [], IfOk, length, slice_index};
ghost use Rattle.tomex_samples.specs.Leaders.{and_farthest, in_order};
ghost use Rattle.tomex_samples.specs.Near.{AreNearest};
ghost use Rattle.tomex_samples.specs.Stretches.{Run};
ghost use Rattle.tomex_samples.specs.Tallied.{AreOf};

use crate::nearness::{NO_LEADER, Near, approach, farthest};
use crate::stretches::Stretches;
use std::alloc::{AllocError, Allocator};

/// The most leaders after the first.
const MORE_LEADERS: u32 = 7;

/// The numbers below `n` that are among others, in order.
pub(crate) fn in_order<A: Allocator>(
    alloc: A,
    n: u32,
    numbers: &[u32],
) -> Result<Vec<u32, A>, AllocError>
    ensures { IfOk result (λ v. v.items ≡ in_order n numbers.now) }
{
    let mut ordered = Vec::new(alloc);
    for k in 0..n {
        if numbers.contains(&k) {
            ordered.push(k)?;
        }
    }
    Ok(ordered)
}

/// The nearest leader of each stretch.
pub(crate) fn nearest_of<A: Allocator + Clone>(
    alloc: A,
    stretches: &Stretches<A>,
    leaders: &[u32],
) -> Result<Vec<Near, A>, AllocError>
    requires shown { (run : Run) × AreOf run stretches.now }
    requires inside { (t : ℕ) → t < length leaders.now → slice_index leaders.now t < length stretches.now.parts.items }
    ensures { IfOk result (λ v. (run : Run) → AreOf run stretches.now → AreNearest run leaders.now v.items) }
{
    let mut near = vec![in alloc.clone()?; NO_LEADER; stretches.parts.len()]?;
    for leader in leaders {
        approach(alloc.clone()?, stretches, &mut near, *leader)?;
    }
    Ok(near)
}

/// A stretch, and up to seven more, each the farthest from those before it.
pub(crate) fn spread<A: Allocator + Clone>(
    alloc: A,
    stretches: &Stretches<A>,
    first: u32,
) -> Result<Vec<u32, A>, AllocError>
    requires shown { (run : Run) × AreOf run stretches.now }
    requires inside { first < length stretches.now.parts.items }
    ensures { IfOk result (λ v. (run : Run) → AreOf run stretches.now
        → v.items ≡ and_farthest run 7 (first ∷ [])) }
{
    let mut near = vec![in alloc.clone()?; NO_LEADER; stretches.parts.len()]?;
    let mut leaders = Vec::new(alloc.clone()?);
    leaders.push(first)?;
    approach(alloc.clone()?, stretches, &mut near, first)?;
    for _more in 0..MORE_LEADERS {
        let Some(next) = farthest(stretches.parts.as_slice(), near.as_slice()) else {
            return Ok(leaders);
        };
        leaders.push(next)?;
        approach(alloc.clone()?, stretches, &mut near, next)?;
    }
    Ok(leaders)
}
