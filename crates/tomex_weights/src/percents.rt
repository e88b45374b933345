//! The percentage by which all weights may be wrong at once.

ghost use Rattle.std.specs.Prelude.{◌≡◌, ◌*◌, ◌<◌, ◌≤◌, ◌^◌, length};
ghost use Rattle.std.specs.Int.{abs_diff};
ghost use Rattle.tomex_pareto.specs.Spans.{swapped};
ghost use Rattle.tomex_weights.specs.Percent.{difference, percent_for, percent_of};

use std::alloc::Allocator;
use tomex_pareto::{FrontRow, percent_by};
use tomex_study::Surveyed;

/// How far two numbers of cycles are apart, times a weight.
fn weighted(weight: u32, a: u64, b: u64) -> u128
    ensures part { result ≡ weight * abs_diff a b }
    ensures few { result < 2 ^ 96 }
{
    u128::from(weight) * u128::from(a.abs_diff(b))
}

/// How far the programs' cycles on two rows are apart, each program's times its weight.
#[tactic(auto, unfolding(crate::specs::Percent::difference))]
fn difference<A: Allocator>(surveyed: &Surveyed<'_, A>, a: usize, b: usize) -> u128
    requires a { a < length surveyed.now.rows }
    requires b { b < length surveyed.now.rows }
    ensures { result ≡ difference surveyed.now a b }
{
    surveyed.keeps_limits();
    let mut sum = 0;
    for (place, program) in surveyed.study().programs().iter().enumerate() {
        let (own, other) = (surveyed.total(a, place), surveyed.total(b, place));
        sum += weighted(program.weight(), own, other);
    }
    sum
}

/// A row with its cost and cycles in each other's place.
fn swapped(row: FrontRow) -> FrontRow
    ensures { result ≡ swapped row }
{
    FrontRow {
        row: row.row,
        cost: row.cycles,
        cycles: row.cost,
    }
}

/// The percentage by which the weights may be wrong if there is only one rival.
fn percent_for<A: Allocator>(surveyed: &Surveyed<'_, A>, row: FrontRow, rival: FrontRow) -> u128
    requires row { row.row < length surveyed.now.rows }
    requires rival { rival.row < length surveyed.now.rows }
    ensures { result ≡ percent_for surveyed.now row rival }
{
    if rival.cost > row.cost {
        return 100;
    }
    let apart = difference(surveyed, row.row, rival.row);
    percent_by(apart, swapped(row), swapped(rival))
}

/// The greatest whole percentage by which all weights of a study may be wrong at once, each one in its own direction,
/// such that a row of its front stays on the front: 0 to 99, or 100 if it stays at any weights.
#[tactic(auto, unfolding(crate::specs::Percent::percent_of))]
pub fn percent<A: Allocator>(surveyed: &Surveyed<'_, A>, row: FrontRow) -> u64
    requires { row.row < length surveyed.now.rows }
    ensures percent { result ≡ percent_of surveyed.now row }
    ensures range { result ≤ 100 }
{
    let mut least = 100;
    for rival in surveyed.rows() {
        least = least.min(percent_for(surveyed, row, *rival));
    }
    least as u64
}
