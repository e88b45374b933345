//! From which address to which a loop's steps are.

ghost use Rattle.std.specs.Prelude.{◌≡◌, ◌<◌, ℕ, All, IfOk, IfSome, length, slice_index_or};
ghost use Rattle.tomex_loop_sums.specs.Extents.{IsExtent, added, is_at, is_in_visit, is_in_visit_of, joined};

use std::alloc::{AllocError, Allocator};

/// Addresses in bytes, from the first to the last.
#[derive(Clone, Copy)]
pub struct Extent {
    pub first: u32,
    pub last: u32,
}

/// From the first address of both to the last.
fn joined(a: Option<Extent>, b: Option<Extent>) -> Option<Extent>
    ensures { result ≡ joined a b }
{
    let Some(a) = a else {
        return b;
    };
    let Some(b) = b else {
        return Some(a);
    };
    Some(Extent {
        first: a.first.min(b.first),
        last: a.last.max(b.last),
    })
}

/// Joins an extent to the one at a place, if there is a place.
fn add<A: Allocator>(
    extents: &mut Vec<Option<Extent>, A>,
    place: Option<u32>,
    extent: Option<Extent>,
)
    requires { IfSome place (λ n. n < length extents.old.items) }
    ensures { extents.new.items ≡ added place extent extents.old.items }
{
    if let Some(place) = place {
        let place = place as usize;
        extents[place] = joined(extents[place], extent);
    }
}

/// What each of `count` visits has of steps that are in no visit within it.
fn extents_here<A: Allocator>(
    alloc: A,
    count: usize,
    here: &[Option<u32>],
    addresses: &[u32],
) -> Result<Vec<Option<Extent>, A>, AllocError>
    requires here { All (λ o. IfSome o (λ v. v < count)) here.now }
    requires pairs { length addresses.now ≡ length here.now }
    ensures count { IfOk result (λ extents. length extents.items ≡ count) }
    ensures extents { IfOk result (λ extents. (v : ℕ) → v < count
        → IsExtent (λ step. is_at v (slice_index_or here.now step None)) addresses.now
        (slice_index_or extents.items v None)) }
{
    let mut extents = vec![in alloc; None; count]?;
    for k in 0..here.len() {
        let address = addresses[k];
        let extent = Extent {
            first: address,
            last: address,
        };
        add(&mut extents, here[k], Some(extent));
    }
    Ok(extents)
}

/// What each visit has: of its own steps, and of the visits within it in the same call.
fn extents_of_visits<A: Allocator>(
    alloc: A,
    within: &[Option<u32>],
    here: &[Option<u32>],
    addresses: &[u32],
) -> Result<Vec<Option<Extent>, A>, AllocError>
    requires lower { (v : ℕ) → IfSome (slice_index_or within.now v None) (λ u. u < v) }
    requires here { All (λ o. IfSome o (λ v. v < length within.now)) here.now }
    requires pairs { length addresses.now ≡ length here.now }
    ensures count { IfOk result (λ extents. length extents.items ≡ length within.now) }
    ensures extents { IfOk result (λ extents. (v : ℕ) → v < length within.now
        → IsExtent (is_in_visit within.now here.now v) addresses.now (slice_index_or extents.items v None)) }
{
    let mut extents = extents_here(alloc, within.len(), here, addresses)?;
    for v in (0..within.len()).rev() {
        let extent = extents[v];
        add(&mut extents, within[v], extent);
    }
    Ok(extents)
}

/// For each of `count` loops the least and the greatest address of the steps in its visits, those of calls not counted;
/// none for a loop without a step.
///
/// `loops` has the number of each visit's loop, `within` the innermost visit around each in the same call, `here` the
/// innermost visit that each step is in, in its own call, and `addresses` the address of each step.
pub fn extents_of<A: Allocator + Clone>(
    alloc: A,
    count: usize,
    loops: &[u32],
    within: &[Option<u32>],
    here: &[Option<u32>],
    addresses: &[u32],
) -> Result<Vec<Option<Extent>, A>, AllocError>
    requires loops { All (λ n. n < count) loops.now }
    requires visits { length within.now ≡ length loops.now }
    requires lower { (v : ℕ) → IfSome (slice_index_or within.now v None) (λ u. u < v) }
    requires here { All (λ o. IfSome o (λ v. v < length loops.now)) here.now }
    requires pairs { length addresses.now ≡ length here.now }
    ensures count { IfOk result (λ extents. length extents.items ≡ count) }
    ensures extents { IfOk result (λ extents. (n : ℕ) → n < count
        → IsExtent (is_in_visit_of loops.now within.now here.now n) addresses.now
        (slice_index_or extents.items n None)) }
{
    let of_visits = extents_of_visits(alloc.clone()?, within, here, addresses)?;
    let mut extents = vec![in alloc; None; count]?;
    for v in 0..loops.len() {
        add(&mut extents, Some(loops[v]), of_visits[v]);
    }
    Ok(extents)
}
