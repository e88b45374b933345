//! The number of relevant prices of a study, computed without allocating.

ghost use Rattle.std.specs.Prelude.{◌≡◌, ◌*◌, ◌≤◌, ◌∷◌, [], length, map};
ghost use Rattle.std.specs.List.{filter, flat_map};
ghost use Rattle.tomex_config.specs.Cost.{all_pools, all_units};
ghost use Rattle.tomex_config.specs.Grid.{most_rows};
ghost use Rattle.tomex_prices.specs.Prices.{choices_of, is_relevant, relevant_prices_of};
ghost use Rattle.tomex_prices.specs.declared.price.Price.TheVariants.{Bus, Station, Width};

use crate::price::Price;
use crate::study_prices::{has_option, is_relevant};
use std::alloc::Allocator;
use tomex_config::Config;
use tomex_rvdec::{PoolId, UnitId};
use tomex_study::Study;

/// The number of relevant prices of pools' stations.
fn count_stations(rows: &[Config]) -> usize
    ensures count { result ≡ length (filter (is_relevant rows.now) (map Station all_pools)) }
    ensures few { result ≤ 6 }
{
    let mut count = 0;
    for pool in PoolId::ALL {
        if is_relevant(rows, Price::Station(pool)) {
            count += 1;
        }
    }
    count
}

/// The number of relevant prices of options for a kind of unit.
fn count_choices(rows: &[Config], unit: UnitId) -> usize
    ensures count { result ≡ length (filter (is_relevant rows.now) (choices_of rows.now unit)) }
    ensures few { result ≤ length rows.now }
{
    let mut count = 0;
    for (place, config) in rows.iter().enumerate() {
        let option = config.option(unit);
        if !has_option(&rows[..place], unit, option)
            && is_relevant(rows, Price::Choice(unit, option))
        {
            count += 1;
        }
    }
    count
}

/// The number of relevant prices of options.
fn count_options(rows: &[Config]) -> usize
    requires { length rows.now ≤ most_rows }
    ensures count { result
        ≡ length (filter (is_relevant rows.now) (flat_map (choices_of rows.now) all_units)) }
    ensures few { result ≤ 5 * most_rows }
{
    let mut count = 0;
    for unit in UnitId::ALL {
        count += count_choices(rows, unit);
    }
    count
}

/// 1 if a price is relevant, else 0.
fn count_price(rows: &[Config], price: Price) -> usize
    ensures count { result ≡ length (filter (is_relevant rows.now) (price ∷ [])) }
    ensures few { result ≤ 1 }
{
    if is_relevant(rows, price) { 1 } else { 0 }
}

/// The number of relevant prices of a study.
pub(crate) fn count_relevant<A: Allocator>(study: &Study<A>) -> usize
    ensures { result ≡ length (relevant_prices_of study.now) }
{
    study.keeps_limits();
    let rows = study.rows();
    let (bus, width) = (
        count_price(rows, Price::Bus),
        count_price(rows, Price::Width),
    );
    count_stations(rows) + count_options(rows) + bus + width
}
