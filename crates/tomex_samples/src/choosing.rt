//! The leaders of a run, and the parts that begin with their stretches, with their weights.

ghost use Rattle.std.specs.Prelude.{◌≡◌, ◌*◌, ◌≤◌, ◌<◌, IfOk, IsTrue, is_some, length, position};
ghost use Rattle.tomex_samples.specs.Near.{AllCan, leaders_in, part_is_found};
ghost use Rattle.tomex_samples.specs.Parts.{all_weighed, leaders_from, share_of, shares_of, weighed};
ghost use Rattle.tomex_samples.specs.Stretches.{Run};
ghost use Rattle.tomex_samples.specs.Tallied.{AreOf};
ghost use Rattle.tomex_samples.specs.Weighable.{AreShares, IsShare};

use crate::chosen::Chosen;
use crate::groups::members;
use crate::leaders::{in_order, nearest_of, spread};
use crate::nearness::Near;
use crate::rounds::leaders_after;
use crate::stretches::Stretches;
use crate::weights::{Share, heaviest, weight};
use std::alloc::{AllocError, Allocator};

/// A part with its weight, if another is the part with the most.
fn weighed(most: Share, share: Share) -> Chosen
    requires shares { IsShare share × IsShare most }
    requires some { 1 ≤ most.stretches }
    requires most { share.stretches * most.steps ≤ most.stretches * share.steps }
    ensures { result ≡ weighed most share }
{
    Chosen {
        from: share.from,
        steps: share.steps,
        stretches: share.stretches,
        weight: weight(most, share),
    }
}

/// The parts with their weights.
pub(crate) fn all_weighed<A: Allocator>(
    alloc: A,
    shares: &[Share],
) -> Result<Vec<Chosen, A>, AllocError>
    requires { AreShares shares.now }
    ensures { IfOk result (λ v. v.items ≡ all_weighed shares.now) }
{
    let most = heaviest(shares, shares[0]);
    let mut chosen = Vec::new(alloc);
    for share in shares {
        chosen.push(weighed(most, *share))?;
    }
    Ok(chosen)
}

/// The part that begins with the stretch of a leader, for its group.
fn share_of<A: Allocator>(stretches: &Stretches<A>, near: &[Near], leader: u32) -> Share
    requires shown { (run : Run) × AreOf run stretches.now }
    requires number { length near.now ≡ length stretches.now.parts.items }
    requires can { IsTrue (part_is_found stretches.now.parts.items leader) }
    ensures { (run : Run) → AreOf run stretches.now
        → result ≡ share_of run (leaders_in near.now) stretches.now.steps leader }
{
    Share {
        from: u64::from(leader) * u64::from(stretches.steps) + 1,
        steps: stretches.parts[leader as usize].unwrap_or(0),
        stretches: members(near, leader) as u32,
    }
}

/// The parts of all leaders.
pub(crate) fn shares_of<A: Allocator + Clone>(
    alloc: A,
    stretches: &Stretches<A>,
    leaders: &[u32],
) -> Result<Vec<Share, A>, AllocError>
    requires shown { (run : Run) × AreOf run stretches.now }
    requires some { 0 < length leaders.now }
    requires can { AllCan stretches.now.parts.items leaders.now }
    ensures { IfOk result (λ v. (run : Run) → AreOf run stretches.now
        → v.items ≡ shares_of run stretches.now.steps leaders.now) }
{
    let near = nearest_of(alloc.clone()?, stretches, leaders)?;
    let mut shares = Vec::new(alloc);
    for leader in leaders {
        shares.push(share_of(stretches, near.as_slice(), *leader))?;
    }
    Ok(shares)
}

/// The first stretch that can, if there is one.
pub(crate) fn first_that_can(parts: &[Option<u32>]) -> Option<usize>
    ensures { result ≡ position is_some parts.now }
{
    parts.iter().position(|part| part.is_some())
}

/// The leaders of the stretches of a run, the first stretch that can being known.
pub(crate) fn leaders_from<A: Allocator + Clone>(
    alloc: A,
    stretches: &Stretches<A>,
    first: u32,
) -> Result<Vec<u32, A>, AllocError>
    requires shown { (run : Run) × AreOf run stretches.now }
    requires can { IsTrue (part_is_found stretches.now.parts.items first) }
    ensures leaders { IfOk result (λ v. (run : Run) → AreOf run stretches.now → v.items ≡ leaders_from run first) }
    ensures some { IfOk result (λ v. 0 < length v.items) }
    ensures can { IfOk result (λ v. AllCan stretches.now.parts.items v.items) }
{
    let spread = spread(alloc.clone()?, stretches, first)?;
    let first_leaders = in_order(
        alloc.clone()?,
        stretches.parts.len() as u32,
        spread.as_slice(),
    )?;
    leaders_after(alloc, stretches, first_leaders)
}
