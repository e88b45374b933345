//! Groups of stretches, one for each leader.

ghost use Rattle.std.specs.Prelude.{◌≡◌, ◌==◌, ◌*◌, ◌<◌, ◌^◌, ℕ, IfOk, IsTrue, count_by, length, slice_index};
ghost use Rattle.tomex_samples.specs.declared.nearness.Near.{Near};
ghost use Rattle.tomex_samples.specs.Groups.{center, center_by};
ghost use Rattle.tomex_samples.specs.Near.{AreGroupSums, leaders_in, part_is_found};
ghost use Rattle.tomex_samples.specs.Numbers.{sum_below};
ghost use Rattle.tomex_samples.specs.Stretches.{Run};
ghost use Rattle.tomex_samples.specs.Tallied.{AreOf};

use crate::distances::add_row;
use crate::nearness::Near;
use crate::stretches::Stretches;
use std::alloc::{AllocError, Allocator};

/// The number of stretches whose nearest leader this is.
pub(crate) fn members(near: &[Near], leader: u32) -> usize
    ensures { result ≡ count_by (λ (x : Near). x.leader == leader) near.now }
{
    near.iter().filter(|x| x.leader == leader).count()
}

/// Adds the counts of all stretches whose nearest leader this is.
pub(crate) fn add_group<A: Allocator>(
    stretches: &Stretches<A>,
    near: &[Near],
    leader: u32,
    sums: &mut [u64],
)
    requires shown { (run : Run) × AreOf run stretches.now }
    requires number { length near.now ≡ length stretches.now.parts.items }
    requires words { length sums.old ≡ stretches.now.words }
    requires none { (w : ℕ) → slice_index sums.old w ≡ 0 }
    ensures { (run : Run) → AreOf run stretches.now → AreGroupSums run near.now leader (length near.now) sums.new }
{
    for k in 0..near.len() {
        if near[k].leader == leader {
            add_row(sums, &stretches.rows[k]);
        }
    }
}

/// The sums of the counts of all stretches whose nearest leader this is, at each word.
pub(crate) fn sums_of<A: Allocator>(
    alloc: A,
    stretches: &Stretches<A>,
    near: &[Near],
    leader: u32,
) -> Result<Vec<u64, A>, AllocError>
    requires shown { (run : Run) × AreOf run stretches.now }
    requires number { length near.now ≡ length stretches.now.parts.items }
    ensures sums { IfOk result (λ v. (run : Run) → AreOf run stretches.now
        → AreGroupSums run near.now leader (length near.now) v.items) }
    ensures words { IfOk result (λ v. length v.items ≡ stretches.now.words) }
{
    let mut sums = vec![in alloc; 0; stretches.words]?;
    add_group(stretches, near, leader, &mut sums);
    Ok(sums)
}

/// Of a leader's stretches that can the one that is nearest to sums, of equals the first: its counts times a factor,
/// against the sums.
fn center_by<A: Allocator>(
    stretches: &Stretches<A>,
    near: &[Near],
    leader: u32,
    times: u64,
    sums: &[u64],
) -> u32
    requires shown { (run : Run) × AreOf run stretches.now }
    requires number { length near.now ≡ length stretches.now.parts.items }
    requires words { length sums.now ≡ stretches.now.words }
    requires sum { sum_below (λ w. slice_index sums.now w) (length sums.now) ≡ times * stretches.now.steps }
    requires few { times < 2 ^ 30 }
    requires can { IsTrue (part_is_found stretches.now.parts.items leader) }
    ensures center { (run : Run) → AreOf run stretches.now
        → result ≡ center_by run (leaders_in near.now) leader times sums.now }
    ensures can { IsTrue (part_is_found stretches.now.parts.items result) }
{
    let mut best = Near {
        leader,
        distance: u64::MAX,
    };
    for k in 0..near.len() {
        if stretches.parts[k].is_some() && near[k].leader == leader {
            let distance = stretches.distance(k, times, sums);
            if distance < best.distance {
                best = Near {
                    leader: k as u32,
                    distance,
                };
            }
        }
    }
    best.leader
}

/// Of a leader's stretches that can the one that is nearest to their mean; of equals the first.
pub(crate) fn center<A: Allocator>(
    alloc: A,
    stretches: &Stretches<A>,
    near: &[Near],
    leader: u32,
) -> Result<u32, AllocError>
    requires shown { (run : Run) × AreOf run stretches.now }
    requires number { length near.now ≡ length stretches.now.parts.items }
    requires can { IsTrue (part_is_found stretches.now.parts.items leader) }
    ensures center { IfOk result (λ l. (run : Run) → AreOf run stretches.now
        → l ≡ center run (leaders_in near.now) leader) }
    ensures can { IfOk result (λ l. IsTrue (part_is_found stretches.now.parts.items l)) }
{
    let sums = sums_of(alloc, stretches, near, leader)?;
    let times = members(near, leader) as u64;
    Ok(center_by(stretches, near, leader, times, sums.as_slice()))
}
