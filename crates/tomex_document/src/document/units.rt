//! The options for each kind of functional unit.

ghost use Rattle.std.specs.Prelude.{◌≡◌, option_map};
ghost use Rattle.toml.specs.View.{table_view, items_view};
ghost use Rattle.tomex_config.specs.Configuration.{most_units};
ghost use Rattle.tomex_values.specs.Readings.{Gives, Reads};
ghost use Rattle.tomex_document.specs.Units.{unit_tables, option_of, options_from, options_of, tables_of};

use std::alloc::Allocator;
use tomex_config::UnitOption;
use tomex_rvdec::UnitId;
use tomex_values::{DocumentError, Key, Limits, Place, known_keys, number_at, tables_at};
use toml::{Table, Value};

/// The tables of each kind, if the document has them.
#[derive(Clone, Copy)]
pub struct UnitTables<'a> {
    pub alu: Option<&'a [Value]>,
    pub mul: Option<&'a [Value]>,
    pub div: Option<&'a [Value]>,
    pub mem: Option<&'a [Value]>,
    pub bru: Option<&'a [Value]>,
}

/// The tables of options that the table of units gives.
#[tactic(auto, unfolding(crate::specs::Units::unit_tables))]
pub fn unit_tables<'a>(table: &'a Table) -> Result<UnitTables<'a>, DocumentError>
    ensures { Reads (λ k. tables_of (λ s. items_view s.now) k.alu k.mul k.div k.mem k.bru)
        result (unit_tables (table_view table.now)) }
{
    let keys = [Key::Alu, Key::Mul, Key::Div, Key::Mem, Key::Bru];
    known_keys(table, Place::Unit, keys.as_slice())?;
    let alu = tables_at(table, Place::Unit, Key::Alu)?;
    let mul = tables_at(table, Place::Unit, Key::Mul)?;
    let div = tables_at(table, Place::Unit, Key::Div)?;
    let mem = tables_at(table, Place::Unit, Key::Mem)?;
    let bru = tables_at(table, Place::Unit, Key::Bru)?;
    Ok(UnitTables {
        alu,
        mul,
        div,
        mem,
        bru,
    })
}

/// The most units of a kind: there is only one for branches.
fn most_units(unit: UnitId) -> u8
    ensures { result ≡ most_units unit }
{
    match unit {
        UnitId::Bru => 1,
        _ => 8,
    }
}

#[tactic(auto, unfolding(crate::specs::Units::option_of))]
fn option_of(table: &Table, place: Place, most: u8) -> Result<UnitOption, DocumentError>
    ensures { result ≡ option_of place most (table_view table.now) }
{
    known_keys(
        table,
        place,
        [Key::Units, Key::Latency, Key::Price].as_slice(),
    )?;
    let units = number_at(
        table,
        place,
        Key::Units,
        Limits::between(1, u32::from(most)),
        1,
    )?;
    let latency = number_at(table, place, Key::Latency, Limits::between(1, 64), 1)?;
    let price = number_at(table, place, Key::Price, Limits::between(0, 1_000_000), 0)?;
    Ok(UnitOption {
        units: units as u8,
        latency: latency as u8,
        price,
    })
}

fn options_from<A: Allocator>(
    alloc: A,
    values: &[Value],
    unit: UnitId,
) -> Result<Vec<UnitOption, A>, DocumentError>
    ensures { Gives (λ v. v.items) result (options_from unit 1 (items_view values.now)) }
{
    let mut options = Vec::new(alloc);
    let mut number = 1usize;
    for value in values {
        let Some(table) = value.as_table() else {
            return Err(DocumentError::Kind(Place::Unit, Key::of_unit(unit)));
        };
        options.push(option_of(table, Place::Option(unit, number), most_units(unit))?)?;
        number += 1;
    }
    Ok(options)
}

/// The options of a kind; if its key is absent, one unit of latency 1 and price 0.
pub fn options_of<A: Allocator>(
    alloc: A,
    values: Option<&[Value]>,
    unit: UnitId,
) -> Result<Vec<UnitOption, A>, DocumentError>
    ensures { Gives
        (λ v. v.items) result (options_of unit (option_map (λ s. items_view s.now) values.entry)) }
{
    match values {
        None => {
            let plain = UnitOption {
                units: 1,
                latency: 1,
                price: 0,
            };
            Ok(vec![in alloc; plain]?)
        }
        Some(values) => options_from(alloc, values, unit),
    }
}
