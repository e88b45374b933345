//! Rows with the cycles of two builds, by the ratio of the two.

ghost use Rattle.std.specs.Prelude.{◌≡◌, ◌<◌, ◌*◌, length, All, IfOk, map};
ghost use Rattle.tomex_compare.specs.Builds.{IsBuild};
ghost use Rattle.tomex_compare.specs.Pairs.{AreComparable, by_ratio, order_of, pair_at, pairs_of, row_numbers};

use crate::build::{Build, total_on};
use std::alloc::{AllocError, Allocator, Global};
use std::cmp::Ordering;
use tomex_study::Surveyed;

/// A row, with the cycles that the old build and the new one take on it.
#[derive(Clone, Copy, PartialEq, Eq)]
pub struct Pair {
    pub row: usize,
    pub old: u64,
    pub new: u64,
}

/// A product, which fits whatever its factors are.
fn product(a: u64, b: u64) -> u128
    ensures { result ≡ a * b }
{
    u128::from(a) * u128::from(b)
}

/// The order by ratio, then number. A program takes at least 1 cycle, and 0 counts as 1 here, so that any two compare.
fn order(a: &Pair, b: &Pair) -> Ordering
    ensures { result ≡ order_of a.now b.now }
{
    let (first, second) = (product(a.new, b.old.max(1)), product(b.new, a.old.max(1)));
    first.cmp(&second).then(a.row.cmp(&b.row))
}

/// Sorts pairs by ratio, then number.
fn sort_by_ratio(pairs: &mut Vec<Pair>)
    requires { AreComparable pairs.old.items }
    ensures { pairs.new.items ≡ by_ratio pairs.old.items }
{
    pairs.sort_unstable_by(|a, b| order(a, b));
}

/// All rows with the cycles of two builds, in the rows' order.
fn unsorted<A: Allocator>(
    heap: Global,
    surveyed: &Surveyed<'_, A>,
    old: &Build<'_, A>,
    new: &Build<'_, A>,
) -> Result<Vec<Pair>, AllocError>
    requires old { IsBuild surveyed.now old.now.place old.now.program.now }
    requires new { IsBuild surveyed.now new.now.place new.now.program.now }
    ensures { IfOk result (λ v. v.items
        ≡ map (pair_at surveyed.now old.now.program.now new.now.program.now) (row_numbers surveyed.now)) }
{
    let mut pairs = Vec::new(heap);
    for row in 0..surveyed.rows().len() {
        pairs.push(Pair {
            row,
            old: total_on(surveyed, old, row),
            new: total_on(surveyed, new, row),
        })?;
    }
    Ok(pairs)
}

/// All rows with the cycles of two builds, by ratio, then number.
pub fn pairs_of<A: Allocator>(
    heap: Global,
    surveyed: &Surveyed<'_, A>,
    old: &Build<'_, A>,
    new: &Build<'_, A>,
) -> Result<Vec<Pair>, AllocError>
    requires old { IsBuild surveyed.now old.now.place old.now.program.now }
    requires new { IsBuild surveyed.now new.now.place new.now.program.now }
    ensures pairs { IfOk result (λ v. v.items ≡ pairs_of surveyed.now old.now.program.now new.now.program.now) }
    ensures within { IfOk result (λ v. All (λ p. p.row < length surveyed.now.rows) v.items) }
{
    surveyed.keeps_limits();
    let mut pairs = unsorted(heap, surveyed, old, new)?;
    sort_by_ratio(&mut pairs);
    Ok(pairs)
}
