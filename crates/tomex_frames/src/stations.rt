//! The reservation stations.

ghost use Rattle.std.specs.Prelude.{◌≡◌, ◌<◌, OnOk, string_bytes};
ghost use Rattle.std.specs.List.{flat_map};
ghost use Rattle.tomex_layout.specs.Growth.{Appends};
ghost use Rattle.tomex_snapshots.specs.Entries.{history_of};
ghost use Rattle.tomex_frames.specs.Stations.{a_cell, all_columns, all_pools, busy_text, column_text, field_cell};
ghost use Rattle.tomex_frames.specs.Stations.{free_text, pool_rows, q_cell, row_in, station_row, station_table, v_cell};

use crate::constants::station_head;
use std::alloc::{AllocError, Allocator, Global};
use std::fmt::Write;
use tomex_config::Config;
use tomex_html::{push_changed_cell, push_table_end};
use tomex_rvdec::PoolId;
use tomex_snapshots::{Name, View};
use tomex_timing::{Busy, Field, Tag};

/// A column of the table, except that of the station's name.
#[derive(Clone, Copy)]
pub enum Column {
    Busy,
    Op,
    Vj,
    Vk,
    Qj,
    Qk,
    A,
}

const COLUMNS: [Column; 7] = [
    Column::Busy,
    Column::Op,
    Column::Vj,
    Column::Vk,
    Column::Qj,
    Column::Qk,
    Column::A,
];

/// All columns, from left to right.
#[tactic(auto, unfolding(crate::specs::Stations::all_columns))]
fn all_columns() -> &'static [Column]
    ensures { result.now ≡ all_columns }
{
    &COLUMNS
}

/// All pools, from top to bottom.
#[tactic(auto, unfolding(crate::specs::Stations::all_pools))]
pub fn all_pools() -> &'static [PoolId]
    ensures { result.now ≡ all_pools }
{
    &PoolId::ALL
}

/// Adds V of an operand, if it is there.
fn push_v(text: &mut String, field: Field) -> Result<(), AllocError>
    ensures { OnOk result (Appends (v_cell field) text.old text.new) }
{
    match field {
        Field::Value(value) => write!(text, "{value:08x}"),
        Field::Waits(_) | Field::Unread => Ok(()),
    }
}

/// Adds Q of an operand, if it waits.
fn push_q(text: &mut String, field: Field) -> Result<(), AllocError>
    ensures { OnOk result (Appends (q_cell field) text.old text.new) }
{
    match field {
        Field::Waits(Tag { pool, number }) => write!(text, "{pool}{number}"),
        Field::Value(_) | Field::Unread => Ok(()),
    }
}

/// Adds A, if it is there.
fn push_a(text: &mut String, a: Option<u32>) -> Result<(), AllocError>
    ensures { OnOk result (Appends (a_cell a) text.old text.new) }
{
    match a {
        Some(a) => write!(text, "{a:08x}"),
        None => Ok(()),
    }
}

/// Adds a column's text for a busy station.
fn push_busy(text: &mut String, busy: &Busy, column: Column) -> Result<(), AllocError>
    ensures { OnOk result (Appends (busy_text busy.now column) text.old text.new) }
{
    match column {
        Column::Busy => text.push_str("yes"),
        Column::Op => text.push_str(busy.instr.op().name()),
        Column::Vj => push_v(text, busy.j),
        Column::Vk => push_v(text, busy.k),
        Column::Qj => push_q(text, busy.j),
        Column::Qk => push_q(text, busy.k),
        Column::A => push_a(text, busy.a),
    }
}

/// Adds a column's text for a free station.
fn push_free(text: &mut String, column: Column) -> Result<(), AllocError>
    ensures { OnOk result (Appends (free_text column) text.old text.new) }
{
    match column {
        Column::Busy => text.push_str("no"),
        _ => Ok(()),
    }
}

/// Writes a column's text for a station.
fn write_column(text: &mut String, station: &Option<Busy>, column: Column) -> Result<(), AllocError>
    ensures { OnOk result (string_bytes text.new ≡ column_text station.now column) }
{
    text.clear();
    match station {
        Some(busy) => push_busy(text, busy, column),
        None => push_free(text, column),
    }
}

/// Two texts, overwritten for each field.
#[derive(Drop)]
pub struct Scratch {
    was: String,
    now: String,
}

impl Scratch {
    /// Two empty texts with memory from `heap`.
    pub fn new(heap: Global) -> Scratch {
        Scratch {
            was: String::new(heap),
            now: String::new(heap),
        }
    }
}

/// Adds a field of a station, which is marked if it has changed and isn't empty.
#[tactic(auto, unfolding(crate::specs::Stations::field_cell))]
fn push_field<A: Allocator>(
    text: &mut String<A>,
    scratch: &mut Scratch,
    was: &Option<Busy>,
    now: &Option<Busy>,
    column: Column,
) -> Result<(), AllocError>
    ensures { OnOk result (Appends (field_cell was.now now.now column) text.old text.new) }
{
    write_column(&mut scratch.was, was, column)?;
    write_column(&mut scratch.now, now, column)?;
    push_changed_cell(text, scratch.was.as_str(), scratch.now.as_str())
}

fn push_fields<A: Allocator>(
    text: &mut String<A>,
    scratch: &mut Scratch,
    was: &Option<Busy>,
    now: &Option<Busy>,
    columns: &[Column],
) -> Result<(), AllocError>
    ensures { OnOk result (Appends (flat_map (field_cell was.now now.now) columns.now) text.old text.new) }
{
    for column in columns {
        push_field(text, scratch, was, now, *column)?;
    }
    Ok(())
}

#[tactic(auto, unfolding(crate::specs::Stations::station_row))]
fn push_row<A: Allocator>(
    text: &mut String<A>,
    scratch: &mut Scratch,
    tag: Tag,
    was: &Option<Busy>,
    now: &Option<Busy>,
) -> Result<(), AllocError>
    ensures { OnOk result (Appends (station_row tag was.now now.now) text.old text.new) }
{
    let name = Name(Some(tag));
    write!(text, "<tr><th scope=\"row\">{name}</th>")?;
    push_fields(text, scratch, was, now, all_columns())?;
    write!(text, "</tr>\n")
}

/// Adds the row of a station in a pool.
fn push_row_in<A: Allocator>(
    text: &mut String<A>,
    scratch: &mut Scratch,
    view: &View<'_>,
    pool: PoolId,
    number: u8,
) -> Result<(), AllocError>
    requires { number < 16 }
    ensures { OnOk result (
        Appends (row_in view.now.cycle (history_of view.now.entries.now) pool number) text.old text.new) }
{
    let place = 16 * pool.place() + number as usize;
    let snapshots = &view.snapshots;
    let was = snapshots.before.stations[place];
    let now = snapshots.now.stations[place];
    push_row(text, scratch, Tag { pool, number }, &was, &now)
}

fn push_pool<A: Allocator>(
    text: &mut String<A>,
    scratch: &mut Scratch,
    view: &View<'_>,
    config: &Config,
    pool: PoolId,
) -> Result<(), AllocError>
    ensures { OnOk result (
        Appends (pool_rows config.now view.now.cycle (history_of view.now.entries.now) pool) text.old text.new) }
{
    for number in 0..config.stations(pool) {
        push_row_in(text, scratch, view, pool, number)?;
    }
    Ok(())
}

fn push_pools<A: Allocator>(
    text: &mut String<A>,
    scratch: &mut Scratch,
    view: &View<'_>,
    config: &Config,
    pools: &[PoolId],
) -> Result<(), AllocError>
    ensures { OnOk result (Appends
        (flat_map (pool_rows config.now view.now.cycle (history_of view.now.entries.now)) pools.now)
        text.old text.new) }
{
    for pool in pools {
        push_pool(text, scratch, view, config, *pool)?;
    }
    Ok(())
}

/// Adds the table of stations.
#[tactic(auto, unfolding(crate::specs::Stations::station_table))]
pub fn push_station_table<A: Allocator>(
    text: &mut String<A>,
    scratch: &mut Scratch,
    view: &View<'_>,
    config: &Config,
) -> Result<(), AllocError>
    ensures { OnOk result (
        Appends (station_table config.now view.now.cycle (history_of view.now.entries.now)) text.old text.new) }
{
    text.push_str(station_head())?;
    push_pools(text, scratch, view, config, all_pools())?;
    push_table_end(text)
}
