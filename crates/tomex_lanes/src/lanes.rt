//! Dealing rows to workers.

ghost use Rattle.std.specs.Prelude.{◌≡◌, ◌<◌, ◌≤◌, length, slice_get, slice_set, IfOk, OnOk, Some, All};
ghost use Rattle.tomex_lanes.specs.Lanes.{Dealt, deal, with_other};

use crate::lane::Lane;
use std::alloc::{AllocError, Allocator};

/// Lets the worker `to` steal from the worker `from`.
fn connect<A: Allocator>(
    lanes: &mut Vec<Lane<A>, A>,
    to: usize,
    from: usize,
    count: usize,
) -> Result<(), AllocError>
    requires places { (to < length lanes.old.items) × (from < length lanes.old.items) }
    requires count { All (λ l. l.count ≡ count) lanes.old.items }
    ensures { (thief victim : Dealt) → slice_get lanes.old.items to ≡ Some thief
        → slice_get lanes.old.items from ≡ Some victim
        → OnOk result (lanes.new.items
        ≡ slice_set lanes.old.items to (with_other thief victim.rows)) }
{
    let victim = lanes[from].victim()?;
    lanes[to].add_victim(victim)
}

/// A lane for each worker. Row i goes to the worker that is left when i is divided by their number,
/// and each worker can steal from all others, the next one first. All memory that lanes use is
/// allocated here.
pub fn deal<A: Allocator + Clone + Drop>(
    alloc: A,
    workers: usize,
    count: usize,
) -> Result<Vec<Lane<A>, A>, AllocError>
    requires some { 1 ≤ workers }
    requires few { workers ≤ 32 }
    ensures { IfOk result (λ v. v.items ≡ deal workers count workers) }
{
    let mut lanes = Vec::new(alloc.clone()?);
    for worker in 0..workers {
        lanes.push(Lane::new(alloc.clone()?, worker, workers, count)?)?;
    }
    for to in 0..workers {
        for step in 1..workers {
            connect(&mut lanes, to, (to + step) % workers, count)?;
        }
    }
    Ok(lanes)
}
