//! The floors of the price bands.

ghost use Rattle.std.specs.Prelude.{ℕ, ◌≡◌, ◌≤◌, ◌<◌, ◌*◌, ◌/◌, length, slice_get, slice_index, IfOk, IfSome, IfNone};
ghost use Rattle.tomex_board.specs.Bands.{distinct_costs, floors_among, floors_of, IsBandOf};
ghost use Rattle.tomex_board.specs.Plans.{most_rows};

use std::alloc::{AllocError, Allocator};
use std::collections::BTreeSet;

/// The number of bands of a board. If its rows have fewer distinct costs, the others aren't used.
pub(crate) const BANDS: usize = 64;

/// How many costs are remembered that are in the set already. Most rows have one of them.
const LATEST: usize = 64;

/// The keys of a set as a list.
fn list_of<A: Allocator>(alloc: A, rising: &BTreeSet<u64, A>) -> Result<Vec<u64, A>, AllocError>
    ensures { IfOk result (λ v. v.items ≡ rising.now.keys) }
{
    rising.iter().copied().collect(alloc)
}

/// The distinct costs, in ascending order.
fn distinct_costs<A: Allocator + Clone>(alloc: A, costs: &[u64]) -> Result<Vec<u64, A>, AllocError>
    ensures { IfOk result (λ v. v.items ≡ distinct_costs costs.now) }
{
    let mut rising = BTreeSet::new(alloc.clone()?);
    let mut latest = [None; LATEST];
    for cost in costs {
        let place = (*cost % LATEST as u64) as usize;
        if latest[place] != Some(*cost) {
            rising.insert(*cost)?;
            latest[place] = Some(*cost);
        }
    }
    list_of(alloc, &rising)
}

/// The `k`th of 64 costs that are evenly spread among those in ascending order.
fn spread(rising: &[u64], k: usize) -> u64
    requires many { (64 < length rising.now) × (length rising.now ≤ most_rows) }
    requires band { k < 64 }
    ensures { result ≡ slice_index rising.now (k * length rising.now / 64) }
{
    rising[k * rising.len() / BANDS]
}

/// The floor of band `k`, given the distinct costs in ascending order: every cost if there are at most
/// 64, else 64 evenly spread ones. `None` if there is no such band.
pub fn floor(costs: &[u64], k: usize) -> Option<u64>
    requires few { length costs.now ≤ most_rows }
    ensures { result ≡ slice_get (floors_among costs.now) k }
{
    if k >= costs.len() || k >= BANDS {
        None
    } else if costs.len() <= BANDS {
        Some(costs[k])
    } else {
        Some(spread(costs, k))
    }
}

/// The floors of the bands of rows with these costs.
pub(crate) fn floors_of<A: Allocator + Clone>(
    alloc: A,
    costs: &[u64],
) -> Result<Vec<u64, A>, AllocError>
    requires few { length costs.now ≤ most_rows }
    ensures { IfOk result (λ v. v.items ≡ floors_of costs.now) }
{
    let rising = distinct_costs(alloc.clone()?, costs)?;
    if rising.len() <= BANDS {
        return Ok(rising);
    }
    let mut floors = Vec::new(alloc);
    for k in 0..BANDS {
        floors.push(spread(&rising, k))?;
    }
    Ok(floors)
}

/// The first band whose floor is at least the cost.
pub(crate) fn band_of(floors: &[u64], cost: u64) -> Option<usize>
    ensures some { IfSome result (IsBandOf floors.now cost) }
    ensures none { IfNone result ((k : ℕ) → k < length floors.now
        → slice_index floors.now k < cost) }
{
    for k in 0..floors.len() {
        if cost <= floors[k] {
            return Some(k);
        }
    }
    None
}
