//! The percentage by which all prices may be wrong at once.

ghost use Rattle.std.specs.Prelude.{◌≡◌, ◌<◌, ◌≤◌, length};
ghost use Rattle.tomex_prices.specs.Percent.{difference, percent_for, percent_of};
ghost use Rattle.tomex_prices.specs.Prices.{prices_of};

use crate::price::Price;
use std::alloc::Allocator;
use tomex_config::{Config, Prices};
use tomex_pareto::{FrontRow, percent_by};
use tomex_study::Surveyed;

/// The cost of the parts that two configurations don't have in common, at these prices.
#[tactic(auto, unfolding(crate::specs::Percent::difference))]
fn difference(prices: &Prices, all: &[Price], a: &Config, b: &Config) -> u128
    ensures { result ≡ difference prices.now all.now a.now b.now }
{
    let mut sum = 0;
    for price in all {
        let times = price.payments(a).abs_diff(price.payments(b));
        sum += u128::from(price.amount(prices) * times);
    }
    sum
}

/// The percentage by which the prices may be wrong if there is only one rival. `all` are the
/// study's prices.
fn percent_for<A: Allocator>(
    surveyed: &Surveyed<'_, A>,
    all: &[Price],
    row: FrontRow,
    rival: FrontRow,
) -> u128
    requires all { all.now ≡ prices_of surveyed.now }
    requires row { row.row < length surveyed.now.rows }
    requires rival { rival.row < length surveyed.now.rows }
    ensures { result ≡ percent_for surveyed.now row rival }
{
    if rival.cycles > row.cycles {
        return 100;
    }
    let (own, other) = (surveyed.config(row.row), surveyed.config(rival.row));
    let apart = difference(&surveyed.study().prices(), all, own, other);
    percent_by(apart, row, rival)
}

/// The greatest whole percentage by which all prices of a study may be wrong at once, each one in
/// its own direction, such that a row of its front stays on the front: 0 to 99, or 100 if it stays
/// at any prices. A price of 0 stays 0.
///
/// `all` are the study's prices.
#[tactic(auto, unfolding(crate::specs::Percent::percent_of))]
pub fn percent<A: Allocator>(surveyed: &Surveyed<'_, A>, all: &[Price], row: FrontRow) -> u64
    requires all { all.now ≡ prices_of surveyed.now }
    requires row { row.row < length surveyed.now.rows }
    ensures percent { result ≡ percent_of surveyed.now row }
    ensures range { result ≤ 100 }
{
    let mut least = 100;
    for rival in surveyed.rows() {
        least = least.min(percent_for(surveyed, all, row, *rival));
    }
    least as u64
}
