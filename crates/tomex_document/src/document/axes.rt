//! The axes of the grid of configurations.

ghost use Rattle.std.specs.Prelude.{◌≡◌, option_map};
ghost use Rattle.toml.specs.View.{table_view, items_view};
ghost use Rattle.tomex_config.specs.Grid.{lists_of};
ghost use Rattle.tomex_values.specs.Lists.{counts_at};
ghost use Rattle.tomex_values.specs.Readings.{Gives};
ghost use Rattle.tomex_document.specs.Axes.{axis_counts, axes_of, counts_of, unit_options};
ghost use Rattle.tomex_document.specs.Units.{options_of};

use super::units::{options_of, unit_tables};
use std::alloc::Allocator;
use tomex_config::{Axes, UnitOption};
use tomex_rvdec::UnitId;
use tomex_values::{DocumentError, Key, Place, counts_at, known_keys};
use toml::{Table, Value};

/// The counts of stations and buses, and the widths.
#[derive(Drop)]
struct Counts<A: Allocator> {
    alu: Vec<u8, A>,
    mul: Vec<u8, A>,
    div: Vec<u8, A>,
    load: Vec<u8, A>,
    store: Vec<u8, A>,
    bru: Vec<u8, A>,
    buses: Vec<u8, A>,
    width: Vec<u8, A>,
}

/// The counts at a key of the axes, allocated by a clone of `alloc`.
fn read_counts<A: Allocator + Clone>(
    alloc: &A,
    table: &Table,
    key: Key,
    most: u8,
) -> Result<Vec<u8, A>, DocumentError>
    ensures { Gives (λ v. v.items) result (counts_at Place.Axes key most (table_view table.now)) }
{
    counts_at(alloc.clone()?, table, Place::Axes, key, most)
}

/// The counts that the table of axes gives.
#[tactic(auto, unfolding(crate::specs::Axes::axis_counts))]
fn axis_counts<A: Allocator + Clone>(alloc: A, table: &Table) -> Result<Counts<A>, DocumentError>
    ensures { Gives
        (λ c. counts_of c.alu.items c.mul.items c.div.items c.load.items c.store.items c.bru.items
        c.buses.items c.width.items) result (axis_counts (table_view table.now)) }
{
    let keys = [
        Key::Alu,
        Key::Mul,
        Key::Div,
        Key::Load,
        Key::Store,
        Key::Bru,
        Key::Buses,
        Key::Width,
    ];
    known_keys(table, Place::Axes, keys.as_slice())?;
    let shared = &alloc;
    let alu = read_counts(shared, table, Key::Alu, 16)?;
    let mul = read_counts(shared, table, Key::Mul, 16)?;
    let div = read_counts(shared, table, Key::Div, 16)?;
    let load = read_counts(shared, table, Key::Load, 16)?;
    let store = read_counts(shared, table, Key::Store, 16)?;
    let bru = read_counts(shared, table, Key::Bru, 16)?;
    let buses = read_counts(shared, table, Key::Buses, 8)?;
    let width = counts_at(alloc, table, Place::Axes, Key::Width, 4)?;
    Ok(Counts {
        alu,
        mul,
        div,
        load,
        store,
        bru,
        buses,
        width,
    })
}

/// The options of a kind, allocated by a clone of `alloc`.
fn read_options<A: Allocator + Clone>(
    alloc: &A,
    values: Option<&[Value]>,
    unit: UnitId,
) -> Result<Vec<UnitOption, A>, DocumentError>
    ensures { Gives
        (λ v. v.items) result (options_of unit (option_map (λ s. items_view s.now) values.entry)) }
{
    options_of(alloc.clone()?, values, unit)
}

/// The options of each kind of unit.
#[derive(Drop)]
struct Options<A: Allocator> {
    alu: Vec<UnitOption, A>,
    mul: Vec<UnitOption, A>,
    div: Vec<UnitOption, A>,
    mem: Vec<UnitOption, A>,
    bru: Vec<UnitOption, A>,
}

/// The options that the table of the unit gives, kind by kind, for whatever is made of them.
fn unit_options<A: Allocator + Clone>(alloc: A, unit: &Table) -> Result<Options<A>, DocumentError>
    ensures { (whole : _) → Gives
        (λ o. whole o.alu.items o.mul.items o.div.items o.mem.items o.bru.items) result
        (unit_options (table_view unit.now) whole) }
{
    let tables = unit_tables(unit)?;
    let shared = &alloc;
    let alu = read_options(shared, tables.alu, UnitId::Alu)?;
    let mul = read_options(shared, tables.mul, UnitId::Mul)?;
    let div = read_options(shared, tables.div, UnitId::Div)?;
    let mem = read_options(shared, tables.mem, UnitId::Mem)?;
    let bru = options_of(alloc, tables.bru, UnitId::Bru)?;
    Ok(Options {
        alu,
        mul,
        div,
        mem,
        bru,
    })
}

/// The axes that the tables of the axes and of the unit give.
pub fn axes_of<A: Allocator + Clone>(
    alloc: A,
    axes: &Table,
    unit: &Table,
) -> Result<Axes<A>, DocumentError>
    ensures { Gives lists_of result (axes_of (table_view axes.now) (table_view unit.now)) }
{
    let counts = axis_counts(alloc.clone()?, axes)?;
    let options = unit_options(alloc, unit)?;
    Ok(Axes {
        alu: counts.alu,
        mul: counts.mul,
        div: counts.div,
        load: counts.load,
        store: counts.store,
        bru: counts.bru,
        alu_units: options.alu,
        mul_units: options.mul,
        div_units: options.div,
        mem_units: options.mem,
        bru_units: options.bru,
        buses: counts.buses,
        width: counts.width,
    })
}
