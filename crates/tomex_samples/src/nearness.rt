//! The nearest leader of each stretch.

ghost use Rattle.std.specs.Prelude.{◌≡◌, ◌<◌, ◌++◌, ◌∷◌, ◌^◌, ℕ, List, [], IfSome, OnOk, Some, length};
ghost use Rattle.tomex_samples.specs.Leaders.{count};
ghost use Rattle.tomex_samples.specs.Near.{AreNearest, farthest_by};
ghost use Rattle.tomex_samples.specs.Stretches.{Run};
ghost use Rattle.tomex_samples.specs.Tallied.{AreOf};

use crate::stretches::Stretches;
use std::alloc::{AllocError, Allocator};

/// A leader, by the number of its stretch, the first being 0, and the distance of a stretch from it.
#[derive(Clone, Copy, PartialEq, Eq)]
pub(crate) struct Near {
    pub(crate) leader: u32,
    pub(crate) distance: u64,
}

/// Farther than any leader.
pub(crate) const NO_LEADER: Near = Near {
    leader: 0,
    distance: u64::MAX,
};

/// One leader more: those stretches that are nearer to it than to the others have it now.
pub(crate) fn approach<A: Allocator>(
    alloc: A,
    stretches: &Stretches<A>,
    near: &mut Vec<Near, A>,
    leader: u32,
) -> Result<(), AllocError>
    requires shown { (run : Run) × AreOf run stretches.now }
    requires inside { leader < length stretches.now.parts.items }
    requires number { length near.old.items ≡ length stretches.now.parts.items }
    ensures near { OnOk result ((run : Run) (leaders : List ℕ) → AreOf run stretches.now
        → AreNearest run leaders near.old.items → AreNearest run (leaders ++ leader ∷ []) near.new.items) }
    ensures number { length near.new.items ≡ length near.old.items }
{
    let counts = stretches.counts_at(alloc, leader as usize)?;
    for k in 0..near.len() {
        let distance = stretches.distance(k, 1, counts.as_slice());
        if distance < near[k].distance {
            near[k] = Near { leader, distance };
        }
    }
    Ok(())
}

/// Of the stretches that can and aren't like a leader the one that is farthest from its nearest; of equals the first.
pub(crate) fn farthest(parts: &[Option<u32>], near: &[Near]) -> Option<u32>
    requires number { length near.now ≡ length parts.now }
    requires few { length parts.now < 2 ^ 32 }
    ensures value { result ≡ farthest_by parts.now near.now (length parts.now) }
    ensures inside { IfSome result (λ k. k < length parts.now) }
{
    let mut best: Option<u32> = None;
    for k in 0..parts.len() {
        let beats = match best {
            None => true,
            Some(b) => near[b as usize].distance < near[k].distance,
        };
        if parts[k].is_some() && near[k].distance > 0 && beats {
            best = Some(k as u32);
        }
    }
    best
}
