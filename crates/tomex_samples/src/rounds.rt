//! Better leaders of groups, round after round.

ghost use Rattle.std.specs.Prelude.{◌≡◌, ◌<◌, ℕ, IfOk, length, map};
ghost use Rattle.tomex_samples.specs.Groups.{center, leaders_after, next_leaders};
ghost use Rattle.tomex_samples.specs.Near.{AllCan, leaders_in};
ghost use Rattle.tomex_samples.specs.Stretches.{Run};
ghost use Rattle.tomex_samples.specs.Tallied.{AreOf};

use crate::groups::center;
use crate::leaders::{in_order, nearest_of};
use crate::nearness::Near;
use crate::stretches::Stretches;
use std::alloc::{AllocError, Allocator};

/// The number of rounds.
const ROUNDS: u32 = 10;

/// The centers of the leaders' groups.
fn centers_of<A: Allocator + Clone>(
    alloc: A,
    stretches: &Stretches<A>,
    near: &[Near],
    leaders: &[u32],
) -> Result<Vec<u32, A>, AllocError>
    requires shown { (run : Run) × AreOf run stretches.now }
    requires number { length near.now ≡ length stretches.now.parts.items }
    requires can { AllCan stretches.now.parts.items leaders.now }
    ensures centers { IfOk result (λ v. (run : Run) → AreOf run stretches.now
        → v.items ≡ map (center run (leaders_in near.now)) leaders.now) }
    ensures can { IfOk result (λ v. AllCan stretches.now.parts.items v.items) }
{
    let mut centers = Vec::new(alloc.clone()?);
    for leader in leaders {
        let center = center(alloc.clone()?, stretches, near, *leader)?;
        centers.push(center)?;
    }
    Ok(centers)
}

/// The groups' new leaders, in the order of the run.
fn next_leaders<A: Allocator + Clone>(
    alloc: A,
    stretches: &Stretches<A>,
    leaders: &[u32],
) -> Result<Vec<u32, A>, AllocError>
    requires shown { (run : Run) × AreOf run stretches.now }
    requires some { 0 < length leaders.now }
    requires can { AllCan stretches.now.parts.items leaders.now }
    ensures leaders { IfOk result (λ v. (run : Run) → AreOf run stretches.now
        → v.items ≡ next_leaders run leaders.now) }
    ensures some { IfOk result (λ v. 0 < length v.items) }
    ensures can { IfOk result (λ v. AllCan stretches.now.parts.items v.items) }
{
    let near = nearest_of(alloc.clone()?, stretches, leaders)?;
    let centers = centers_of(alloc.clone()?, stretches, near.as_slice(), leaders)?;
    in_order(alloc, stretches.parts.len() as u32, centers.as_slice())
}

/// The leaders after ten rounds.
pub(crate) fn leaders_after<A: Allocator + Clone>(
    alloc: A,
    stretches: &Stretches<A>,
    first: Vec<u32, A>,
) -> Result<Vec<u32, A>, AllocError>
    requires shown { (run : Run) × AreOf run stretches.now }
    requires some { 0 < length first.items }
    requires can { AllCan stretches.now.parts.items first.items }
    ensures leaders { IfOk result (λ v. (run : Run) → AreOf run stretches.now
        → v.items ≡ leaders_after run 10 first.items) }
    ensures some { IfOk result (λ v. 0 < length v.items) }
    ensures can { IfOk result (λ v. AllCan stretches.now.parts.items v.items) }
{
    let mut leaders = first;
    for _round in 0..ROUNDS {
        let next = next_leaders(alloc.clone()?, stretches, leaders.as_slice())?;
        leaders = next;
    }
    Ok(leaders)
}
