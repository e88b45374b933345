//! The lower convex hull of a front.

ghost use Rattle.std.specs.Prelude.{◌≡◌, ◌*◌, IfOk, None};
ghost use Rattle.tomex_pareto.specs.Hull.{hull_of, is_flatter, is_unmixed};
ghost use Rattle.tomex_pareto.specs.Steps.{best_of, follows_steeper, is_cheaper, is_costlier, is_next, leads_flatter};

use crate::front_row::FrontRow;
use std::alloc::{AllocError, Allocator};

/// Cycles times cost, which fits whatever they are.
fn product(cycles: u64, cost: u64) -> u128
    ensures { result ≡ cycles * cost }
{
    u128::from(cycles) * u128::from(cost)
}

/// True if the step from `a` to `b` saves less for 1 of cost than the one from `c` to `d`.
fn is_flatter(a: FrontRow, b: FrontRow, c: FrontRow, d: FrontRow) -> bool
    ensures { result ≡ is_flatter a b c d }
{
    product(
        a.cycles.saturating_sub(b.cycles),
        d.cost.saturating_sub(c.cost),
    ) < product(
        c.cycles.saturating_sub(d.cycles),
        b.cost.saturating_sub(a.cost),
    )
}

/// True if `other` is cheaper than `row`, and its step to `row` flatter than that of `best`.
fn leads(row: FrontRow, best: Option<FrontRow>, other: FrontRow) -> bool
    ensures { result ≡ is_next (is_cheaper row) (leads_flatter row) best other }
{
    match best {
        None => other.cost < row.cost,
        Some(best) => other.cost < row.cost && is_flatter(other, row, best, row),
    }
}

/// True if `other` is costlier than `row`, and the step from `row` to it steeper than that to `best`.
fn follows(row: FrontRow, best: Option<FrontRow>, other: FrontRow) -> bool
    ensures { result ≡ is_next (is_costlier row) (follows_steeper row) best other }
{
    match best {
        None => row.cost < other.cost,
        Some(best) => row.cost < other.cost && is_flatter(row, best, row, other),
    }
}

/// The cheaper row with the flattest step to `row`.
fn flattest(front: &[FrontRow], row: FrontRow) -> Option<FrontRow>
    ensures { result ≡ best_of (is_cheaper row) (leads_flatter row) None front.now }
{
    let mut best = None;
    for other in front {
        if leads(row, best, *other) {
            best = Some(*other);
        }
    }
    best
}

/// The costlier row with the steepest step from `row`.
fn steepest(front: &[FrontRow], row: FrontRow) -> Option<FrontRow>
    ensures { result ≡ best_of (is_costlier row) (follows_steeper row) None front.now }
{
    let mut best = None;
    for other in front {
        if follows(row, best, *other) {
            best = Some(*other);
        }
    }
    best
}

/// True if no mix of two rows beats `row`: if it isn't above the line from the cheaper row with the flattest step to it
/// to the costlier one with the steepest step from it, it is above no line.
fn is_unmixed(front: &[FrontRow], row: FrontRow) -> bool
    ensures { result ≡ is_unmixed front.now row }
{
    match (flattest(front, row), steepest(front, row)) {
        (Some(a), Some(b)) => !is_flatter(a, row, row, b),
        (None, _) => true,
        (Some(_), None) => true,
    }
}

/// The rows of a front that are on its lower convex hull, in its order. A row on the line between two others stays, and
/// so do equal rows.
///
/// For each row one look at all others.
pub fn hull<A: Allocator>(alloc: A, front: &[FrontRow]) -> Result<Vec<FrontRow, A>, AllocError>
    ensures { IfOk result (λ rows. rows.items ≡ hull_of front.now) }
{
    let mut rows = Vec::new(alloc);
    for row in front {
        if is_unmixed(front, *row) {
            rows.push(*row)?;
        }
    }
    Ok(rows)
}
