//! The cycles of a path by the keys of its links' steps.

ghost use Rattle.std.specs.Prelude.{◌≡◌, ◌<◌, ◌≤◌, ◌^◌, All, IfOk, IfSome, length, map, sum};
ghost use Rattle.tomex_path.specs.Laws.{cycles_of, had_for};
ghost use Rattle.tomex_path_views.specs.Shares.{AreShort, IsShort};
ghost use Rattle.tomex_stretches.specs.Accounts.{AreSums};
ghost use Rattle.tomex_loop_views.specs.PathCycles.{PathCyclesAddUp, cycles_for, key_of_link};

use std::alloc::{AllocError, Allocator};
use tomex_path::{Link, Reason};
use tomex_path_views::{cycles_of, is_reason};
use tomex_stretches::{Sums, sums_by_key};

/// The cycles of a link, if it begins no earlier for this reason, and else 0.
fn cycles_if(link: &Link, reason: Reason) -> u64
    requires { IsShort link.now }
    ensures { result ≡ had_for reason cycles_of link.now }
{
    if is_reason(reason, link.reason) {
        cycles_of(link)
    } else {
        0
    }
}

/// The keys of the steps of a path's links, given those of all steps.
pub(crate) fn keys_of_links<A: Allocator>(
    alloc: A,
    keys: &[Option<u32>],
    links: &[Link],
) -> Result<Vec<Option<u32>, A>, AllocError>
    requires { All (λ l. (1 ≤ l.step) × (l.step ≤ length keys.now)) links.now }
    ensures { IfOk result (λ v. v.items ≡ map (key_of_link keys.now) links.now) }
{
    let mut found = Vec::new(alloc);
    for link in links {
        found.push(keys[link.step as usize - 1])?;
    }
    Ok(found)
}

/// The cycles of each link that begins no earlier for this reason.
fn link_cycles<A: Allocator>(
    alloc: A,
    links: &[Link],
    reason: Reason,
) -> Result<Vec<u64, A>, AllocError>
    requires { AreShort links.now }
    ensures { IfOk result (λ v. v.items ≡ cycles_for reason links.now) }
{
    let mut cycles = Vec::new(alloc);
    for link in links {
        cycles.push(cycles_if(link, reason))?;
    }
    Ok(cycles)
}

/// The cycles of a path's links that begin no earlier for a reason, by their keys: one of `count`, or none.
pub(crate) fn path_cycles_of<A: Allocator + Clone>(
    alloc: A,
    keys: &[Option<u32>],
    count: usize,
    links: &[Link],
    reason: Reason,
) -> Result<Sums<A>, AllocError>
    requires short { AreShort links.now }
    requires pairs { length keys.now ≡ length links.now }
    requires keys { All (λ key. IfSome key (λ n. n < count)) keys.now }
    ensures { IfOk result (λ s. AreSums count keys.now (cycles_for reason links.now) s) }
{
    let cycles = link_cycles(alloc.clone()?, links, reason)?;
    sums_by_key(alloc, count, keys, &cycles)
}

/// For all reasons and keys together, these cycles are the path's.
pub fn path_cycles_add_up()
    ensures { PathCyclesAddUp }
{}
