//! The front of rows.

ghost use Rattle.std.specs.Prelude.{◌≡◌, IfOk, IsPermutation};
ghost use Rattle.std.specs.List.{AllPairs};
ghost use Rattle.tomex_pareto.specs.Front.{by_cost, front_of, is_on};
ghost use Rattle.tomex_pareto.specs.Pareto.{AreNumbered};
ghost use Rattle.tomex_pareto.specs.Passing.{IsUpTo, stays_after};

use crate::front_row::FrontRow;
use std::alloc::{AllocError, Allocator};

/// Sorts rows by cost, then cycles, then number.
fn sort_rows<A: Allocator>(rows: &mut Vec<FrontRow, A>)
    ensures moved { IsPermutation rows.old.items rows.new.items }
    ensures order { AllPairs IsUpTo rows.new.items }
{
    rows.sort_unstable_by_key(|row| (row.cost, row.cycles, row.row));
}

/// Sorts numbered rows by cost, then number.
pub fn sort_by_cost<A: Allocator>(rows: &mut Vec<FrontRow, A>)
    requires { AreNumbered rows.old.items }
    ensures { rows.new.items ≡ by_cost rows.old.items }
{
    rows.sort_unstable_by_key(|row| (row.cost, row.row));
}

/// True if the row of this number is one of these.
pub fn is_on(front: &[FrontRow], row: usize) -> bool
    ensures { result ≡ is_on front.now row }
{
    front.iter().any(|other| other.row == row)
}

/// True if a row is on the front, given `last`, the last row of the front before it. Rows come by cost, then
/// cycles, then number, so no row before it takes fewer cycles than `last`.
fn stays(last: Option<FrontRow>, row: FrontRow) -> bool
    ensures { result ≡ stays_after last row }
{
    match last {
        None => true,
        Some(last) => {
            row.cycles < last.cycles || (row.cycles == last.cycles && row.cost == last.cost)
        }
    }
}

/// The rows that none of them dominates, by cost, then number.
///
/// A sort and one pass: a row stays if it takes fewer cycles than every row before it, or has the cost and cycles
/// of the last one that stayed.
pub fn front<A: Allocator>(
    alloc: A,
    mut rows: Vec<FrontRow, A>,
) -> Result<Vec<FrontRow, A>, AllocError>
    requires { AreNumbered rows.items }
    ensures { IfOk result (λ v. v.items ≡ front_of rows.items) }
{
    sort_rows(&mut rows);
    let mut front = Vec::new(alloc);
    let mut last = None;
    for row in &rows {
        if stays(last, *row) {
            front.push(*row)?;
            last = Some(*row);
        }
    }
    Ok(front)
}
