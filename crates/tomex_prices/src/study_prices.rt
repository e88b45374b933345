//! The prices of a study, and those that rows pay differently often.

ghost use Rattle.std.specs.Prelude.{◌≡◌, ◌≤◌, ◌==◌, ◌++◌, length, map, not, IfOk, OnOk};
ghost use Rattle.std.specs.List.{filter, flat_map, list_any};
ghost use Rattle.tomex_config.specs.Configuration.{option_of};
ghost use Rattle.tomex_config.specs.Cost.{all_pools, all_units};
ghost use Rattle.tomex_prices.specs.Price.{payments};
ghost use Rattle.tomex_config.specs.Configuration.{same_option};
ghost use Rattle.tomex_prices.specs.Prices.{choices_of, is_relevant, prices_of, relevant_prices_of};
ghost use Rattle.tomex_prices.specs.declared.price.Price.TheVariants.{Station};

use crate::price::Price;
use std::alloc::{AllocError, Allocator};
use tomex_config::{Config, UnitOption, same_option};
use tomex_rvdec::{PoolId, UnitId};
use tomex_study::Study;

/// True if one of these configurations has that option for a kind of unit.
pub(crate) fn has_option(rows: &[Config], unit: UnitId, option: UnitOption) -> bool
    ensures { result ≡ list_any (λ config. same_option (option_of config unit) option) rows.now }
{
    rows.iter()
        .any(|config| same_option(config.option(unit), option))
}

/// Adds the prices of the pools' stations.
fn push_stations<A: Allocator>(prices: &mut Vec<Price, A>) -> Result<(), AllocError>
    ensures { OnOk result (prices.new.items ≡ prices.old.items ++ map Station all_pools) }
{
    for pool in PoolId::ALL {
        prices.push(Price::Station(pool))?;
    }
    Ok(())
}

/// Adds the prices of the options for a kind of unit that some row has, in the order of the first rows that have them.
fn push_choices<A: Allocator>(
    prices: &mut Vec<Price, A>,
    rows: &[Config],
    unit: UnitId,
) -> Result<(), AllocError>
    ensures { OnOk result (prices.new.items ≡ prices.old.items ++ choices_of rows.now unit) }
{
    for (place, config) in rows.iter().enumerate() {
        let option = config.option(unit);
        if !has_option(&rows[..place], unit, option) {
            prices.push(Price::Choice(unit, option))?;
        }
    }
    Ok(())
}

/// Adds the prices of the options for all kinds of units.
fn push_options<A: Allocator>(prices: &mut Vec<Price, A>, rows: &[Config]) -> Result<(), AllocError>
    ensures { OnOk result (prices.new.items
        ≡ prices.old.items ++ flat_map (choices_of rows.now) all_units) }
{
    for unit in UnitId::ALL {
        push_choices(prices, rows, unit)?;
    }
    Ok(())
}

/// All prices of a study: those of the pools' stations, of the options that some row has, of a bus, and of the width.
#[tactic(auto, unfolding(crate::specs::Prices::prices_of))]
pub fn prices<A: Allocator, B: Allocator>(
    alloc: B,
    study: &Study<A>,
) -> Result<Vec<Price, B>, AllocError>
    ensures { IfOk result (λ v. v.items ≡ prices_of study.now) }
{
    let mut prices = Vec::new(alloc);
    push_stations(&mut prices)?;
    push_options(&mut prices, study.rows())?;
    prices.push(Price::Bus)?;
    prices.push(Price::Width)?;
    Ok(prices)
}

/// True if one of the configurations pays a price more or less often than usual.
fn is_other(price: Price, usual: u64, rows: &[Config]) -> bool
    ensures { result ≡ list_any (λ config. not (payments price config == usual)) rows.now }
{
    for config in rows {
        if price.payments(config) != usual {
            return true;
        }
    }
    false
}

/// True if two of the configurations pay a price differently often.
#[tactic(auto, unfolding(crate::specs::Prices::is_relevant))]
pub(crate) fn is_relevant(rows: &[Config], price: Price) -> bool
    ensures { result ≡ is_relevant rows.now price }
{
    let [first, rest @ ..] = rows else {
        return false;
    };
    is_other(price, price.payments(first), rest)
}

/// The prices that some rows of a study pay more often than others. No other price affects its
/// front.
#[tactic(auto, unfolding(crate::specs::Prices::relevant_prices_of))]
pub fn relevant_prices<A: Allocator, B: Allocator + Clone>(
    alloc: B,
    study: &Study<A>,
) -> Result<Vec<Price, B>, AllocError>
    ensures { IfOk result (λ v. v.items ≡ relevant_prices_of study.now) }
{
    let all = prices(alloc.clone()?, study)?;
    let mut relevant = Vec::new(alloc);
    for price in &all {
        if is_relevant(study.rows(), *price) {
            relevant.push(*price)?;
        }
    }
    Ok(relevant)
}
