//! The configurations of a grid: the product of its axes, made one axis after another.

ghost use Rattle.std.specs.Prelude.{◌≡◌, ◌≤◌, length, IfOk, true};
ghost use Rattle.std.specs.List.{list_all};
ghost use Rattle.tomex_config.specs.Configuration.{is_between, is_option, most_units, with_stations};
ghost use Rattle.tomex_config.specs.Configuration.{with_option, with_buses, with_width};
ghost use Rattle.tomex_config.specs.Grid.{lists_of, most_rows, stations_in_range, options_in_range, rest_in_range};
ghost use Rattle.tomex_config.specs.Grid.{in_range, rows_of, grid_of, Gives};
ghost use Rattle.tomex_config.specs.Vary.{vary, station_rows, option_rows, bus_rows};

use crate::axis::Axes;
use crate::config::{Config, UnitOption};
use std::alloc::{AllocError, Allocator};
use thiserror::Error;
use tomex_rvdec::{PoolId, UnitId};

/// Why axes have no grid: the first of these that holds.
#[derive(Clone, Copy, Debug, PartialEq, Eq, Error)]
pub enum GridError {
    #[error("an axis is empty")]
    EmptyAxis,
    #[error("a value is out of range")]
    OutOfRange,
    /// There are more than 16,384 configurations.
    #[error("too many configurations")]
    TooMany,
    #[error("out of memory")]
    Memory,
}

/// Each configuration, once with each number of stations in a pool.
fn vary_stations<A: Allocator + Clone>(
    alloc: &A,
    rows: &[Config],
    pool: PoolId,
    counts: &[u8],
) -> Result<Vec<Config, A>, AllocError>
    requires { list_all (is_between 1 16) counts.now ≡ true }
    ensures { IfOk result (λ v. v.items ≡ vary (with_stations pool) counts.now rows.now) }
{
    let mut varied = Vec::new(alloc.clone()?);
    for config in rows {
        for count in counts {
            varied.push(config.with_stations(pool, *count))?;
        }
    }
    Ok(varied)
}

/// Each configuration, once with each option for a kind of unit.
fn vary_option<A: Allocator + Clone>(
    alloc: &A,
    rows: &[Config],
    unit: UnitId,
    options: &[UnitOption],
) -> Result<Vec<Config, A>, AllocError>
    requires { list_all (is_option (most_units unit)) options.now ≡ true }
    ensures { IfOk result (λ v. v.items ≡ vary (with_option unit) options.now rows.now) }
{
    let mut varied = Vec::new(alloc.clone()?);
    for config in rows {
        for option in options {
            varied.push(config.with_option(unit, *option))?;
        }
    }
    Ok(varied)
}

/// Each configuration, once with each number of buses.
fn vary_buses<A: Allocator + Clone>(
    alloc: &A,
    rows: &[Config],
    buses: &[u8],
) -> Result<Vec<Config, A>, AllocError>
    requires { list_all (is_between 1 8) buses.now ≡ true }
    ensures { IfOk result (λ v. v.items ≡ vary with_buses buses.now rows.now) }
{
    let mut varied = Vec::new(alloc.clone()?);
    for config in rows {
        for count in buses {
            varied.push(config.with_buses(*count))?;
        }
    }
    Ok(varied)
}

/// Each configuration, once with each width.
fn vary_width<A: Allocator + Clone>(
    alloc: &A,
    rows: &[Config],
    widths: &[u8],
) -> Result<Vec<Config, A>, AllocError>
    requires { list_all (is_between 1 4) widths.now ≡ true }
    ensures { IfOk result (λ v. v.items ≡ vary with_width widths.now rows.now) }
{
    let mut varied = Vec::new(alloc.clone()?);
    for config in rows {
        for width in widths {
            varied.push(config.with_width(*width))?;
        }
    }
    Ok(varied)
}

/// The configurations for each choice of stations.
fn station_rows<A: Allocator + Clone>(
    alloc: &A,
    axes: &Axes<A>,
) -> Result<Vec<Config, A>, AllocError>
    requires { stations_in_range (lists_of axes.now) ≡ true }
    ensures { IfOk result (λ v. v.items ≡ station_rows (lists_of axes.now)) }
{
    let plain = [Config::plain()];
    let mut rows = vary_stations(alloc, &plain, PoolId::Alu, &axes.alu)?;
    rows = vary_stations(alloc, &rows, PoolId::Mul, &axes.mul)?;
    rows = vary_stations(alloc, &rows, PoolId::Div, &axes.div)?;
    rows = vary_stations(alloc, &rows, PoolId::Load, &axes.load)?;
    rows = vary_stations(alloc, &rows, PoolId::Store, &axes.store)?;
    vary_stations(alloc, &rows, PoolId::Bru, &axes.bru)
}

/// The configurations for each choice of stations and options.
fn option_rows<A: Allocator + Clone>(
    alloc: &A,
    axes: &Axes<A>,
) -> Result<Vec<Config, A>, AllocError>
    requires stations { stations_in_range (lists_of axes.now) ≡ true }
    requires options { options_in_range (lists_of axes.now) ≡ true }
    ensures { IfOk result (λ v. v.items ≡ option_rows (lists_of axes.now)) }
{
    let mut rows = station_rows(alloc, axes)?;
    rows = vary_option(alloc, &rows, UnitId::Alu, &axes.alu_units)?;
    rows = vary_option(alloc, &rows, UnitId::Mul, &axes.mul_units)?;
    rows = vary_option(alloc, &rows, UnitId::Div, &axes.div_units)?;
    rows = vary_option(alloc, &rows, UnitId::Mem, &axes.mem_units)?;
    vary_option(alloc, &rows, UnitId::Bru, &axes.bru_units)
}

/// The configurations for each choice of stations, options and buses.
fn bus_rows<A: Allocator + Clone>(alloc: &A, axes: &Axes<A>) -> Result<Vec<Config, A>, AllocError>
    requires stations { stations_in_range (lists_of axes.now) ≡ true }
    requires options { options_in_range (lists_of axes.now) ≡ true }
    requires rest { rest_in_range (lists_of axes.now) ≡ true }
    ensures { IfOk result (λ v. v.items ≡ bus_rows (lists_of axes.now)) }
{
    let rows = option_rows(alloc, axes)?;
    vary_buses(alloc, &rows, &axes.buses)
}

/// The configurations for each choice of all parts.
#[tactic(auto, unfolding(crate::specs::Grid::in_range))]
fn rows_of<A: Allocator + Clone>(alloc: &A, axes: &Axes<A>) -> Result<Vec<Config, A>, AllocError>
    requires { in_range (lists_of axes.now) ≡ true }
    ensures { IfOk result (λ v. v.items ≡ rows_of (lists_of axes.now)) }
{
    let rows = bus_rows(alloc, axes)?;
    vary_width(alloc, &rows, &axes.width)
}

/// The configurations of the axes: each choice of a value from each list is a configuration, and
/// the last axis varies fastest. There are at most 16,384. A value that occurs twice gives two
/// configurations.
#[tactic(auto, using(crate::proofs::Counted::row_count), unfolding(crate::specs::Grid::grid_of))]
pub fn grid<A: Allocator + Clone>(alloc: A, axes: &Axes<A>) -> Result<Vec<Config, A>, GridError>
    ensures exact { Gives (λ v. v.items) result (grid_of (lists_of axes.now)) }
    ensures count { IfOk result (λ v. (1 ≤ length v.items) × (length v.items ≤ most_rows)) }
{
    if axes.has_empty() {
        return Err(GridError::EmptyAxis);
    }
    if !axes.is_in_range() {
        return Err(GridError::OutOfRange);
    }
    if axes.is_too_large() {
        return Err(GridError::TooMany);
    }
    match rows_of(&alloc, axes) {
        Ok(rows) => Ok(rows),
        Err(AllocError) => Err(GridError::Memory),
    }
}
