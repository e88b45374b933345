//! Rows with one price apart.

ghost use Rattle.std.specs.Prelude.{◌≡◌, All, IfOk};
ghost use Rattle.tomex_prices.specs.Interval.{IsSmall};
ghost use Rattle.tomex_prices.specs.Repriced.{with_price_apart};
ghost use Rattle.tomex_prices.specs.Studies.{rows_with};

use crate::price::Price;
use std::alloc::{AllocError, Allocator};
use tomex_config::{Config, Prices, cost};
use tomex_pareto::LineRow;
use tomex_study::Surveyed;

/// A configuration of these cycles with a price apart: its cost is a line in that price.
pub(crate) fn with_price_apart(
    price: Price,
    prices: &Prices,
    row: usize,
    config: &Config,
    cycles: u64,
) -> LineRow
    ensures parts { result ≡ with_price_apart price prices.now row config.now cycles }
    ensures small { IsSmall result }
{
    prices.keeps_limits();
    config.keeps_limits();
    let times = price.payments(config);
    let rest = cost(config, prices) - price.amount(prices) * times;
    LineRow {
        row,
        rest,
        times,
        other: cycles,
    }
}

/// All rows of a study with a price apart.
pub fn rows_with<A: Allocator, B: Allocator>(
    alloc: B,
    surveyed: &Surveyed<'_, A>,
    price: Price,
) -> Result<Vec<LineRow, B>, AllocError>
    ensures rows { IfOk result (λ v. v.items ≡ rows_with surveyed.now price) }
    ensures small { IfOk result (λ v. All IsSmall v.items) }
{
    surveyed.keeps_limits();
    let study = surveyed.study();
    let prices = study.prices();
    let mut apart = Vec::with_capacity(alloc, study.rows().len())?;
    for (row, config) in study.rows().iter().enumerate() {
        let cycles = surveyed.row(row).cycles;
        apart.push(with_price_apart(price, &prices, row, config, cycles))?;
    }
    Ok(apart)
}
