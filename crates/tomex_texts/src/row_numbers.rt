//! The numbers of a row, and of its machine.

ghost use Rattle.std.specs.Prelude.{◌≡◌, ◌++◌, map, OnOk};
ghost use Rattle.std.specs.List.{flat_map};
ghost use Rattle.tomex_config.specs.Configuration.{stations_of};
ghost use Rattle.tomex_config.specs.Cost.{all_pools, all_units};
ghost use Rattle.tomex_texts.specs.FrontReport.{if_wide, row_numbers, unit_numbers};

use std::alloc::AllocError;
use tomex_config::Config;
use tomex_pareto::FrontRow;
use tomex_rvdec::{PoolId, UnitId};

/// Adds the stations of each pool.
fn push_stations(numbers: &mut Vec<u64>, config: &Config) -> Result<(), AllocError>
    ensures { OnOk result
        (numbers.new.items ≡ numbers.old.items ++ map (stations_of config.now) all_pools) }
{
    for pool in PoolId::ALL {
        numbers.push(u64::from(config.stations(pool)))?;
    }
    Ok(())
}

/// Adds the units and the latency of each kind.
fn push_units(numbers: &mut Vec<u64>, config: &Config) -> Result<(), AllocError>
    ensures { OnOk result
        (numbers.new.items ≡ numbers.old.items ++ flat_map (unit_numbers config.now) all_units) }
{
    for unit in UnitId::ALL {
        numbers.push(u64::from(config.units(unit)))?;
        numbers.push(u64::from(config.latency(unit)))?;
    }
    Ok(())
}

/// Adds a number of a report that shows widths and weights.
fn push_if_wide(numbers: &mut Vec<u64>, wide: bool, number: u64) -> Result<(), AllocError>
    ensures { OnOk result (numbers.new.items ≡ numbers.old.items ++ if_wide wide number) }
{
    if wide {
        numbers.push(number)?;
    }
    Ok(())
}

/// Adds a row's number, cost and cycles, and its parts.
#[tactic(auto, unfolding(crate::specs::FrontReport::row_numbers))]
pub(crate) fn push_row_numbers(
    numbers: &mut Vec<u64>,
    wide: bool,
    row: FrontRow,
    config: &Config,
) -> Result<(), AllocError>
    ensures { OnOk result (numbers.new.items ≡ numbers.old.items ++ row_numbers wide row config.now) }
{
    numbers.push(row.row as u64)?;
    numbers.push(row.cost)?;
    numbers.push(row.cycles)?;
    push_stations(numbers, config)?;
    push_units(numbers, config)?;
    numbers.push(u64::from(config.buses()))?;
    push_if_wide(numbers, wide, u64::from(config.width()))
}
