//! A view to be filled in: what the view with its cells full has, but each of its cells is empty.

ghost use Rattle.std.specs.Prelude.{◌<◌, ◌≤◌, ◌-◌, OnOk};
ghost use Rattle.std.specs.List.{flat_map, range_with_len};
ghost use Rattle.tomex_layout.specs.Growth.{Appends};
ghost use Rattle.tomex_frames.specs.Blank.{blank_event, blank_events, blank_pool, blank_register, blank_registers};
ghost use Rattle.tomex_frames.specs.Blank.{blank_station, blank_stations, blank_status, blank_step, blank_step_if};

use crate::constants::{station_head, status_head};
use crate::events::{Event, all_events};
use crate::stations::all_pools;
use crate::status::listed_cycles;
use std::alloc::{AllocError, Allocator};
use std::fmt::Write;
use tomex_config::Config;
use tomex_html::push_table_end;
use tomex_rvdec::PoolId;
use tomex_snapshots::{Entry, Name, Span};
use tomex_timing::Tag;

#[tactic(auto, unfolding(crate::specs::Blank::blank_event))]
fn push_blank_event<A: Allocator>(text: &mut String<A>, event: Event) -> Result<(), AllocError>
    ensures { OnOk result (Appends (blank_event event) text.old text.new) }
{
    let name = event.name();
    write!(text, "<div><dt>{name}</dt><dd></dd></div>\n")
}

fn push_all_events<A: Allocator>(text: &mut String<A>, events: &[Event]) -> Result<(), AllocError>
    ensures { OnOk result (Appends (flat_map blank_event events.now) text.old text.new) }
{
    for event in events {
        push_blank_event(text, *event)?;
    }
    Ok(())
}

/// Adds the names of the events of a cycle.
#[tactic(auto, unfolding(crate::specs::Blank::blank_events))]
pub fn push_blank_events<A: Allocator>(text: &mut String<A>) -> Result<(), AllocError>
    ensures { OnOk result (Appends blank_events text.old text.new) }
{
    text.push_str("<dl class=\"e\">\n")?;
    push_all_events(text, all_events())?;
    write!(text, "</dl>\n")
}

/// Adds the row of a step: its number and its instruction.
#[tactic(auto, unfolding(crate::specs::Blank::blank_step))]
fn push_blank_step<A: Allocator>(text: &mut String<A>, entry: &Entry) -> Result<(), AllocError>
    ensures { OnOk result (Appends (blank_step entry.now) text.old text.new) }
{
    let (number, instr) = (entry.number, entry.step.instr);
    write!(text, "<tr><td>{number}</td><th scope=\"row\">{instr}</th>")?;
    text.push_str("<td></td><td></td><td></td><td></td><td></td><td></td>")?;
    write!(text, "</tr>\n")
}

/// Adds the rows of the steps that are listed in some of these cycles.
fn push_blank_steps<A: Allocator>(
    text: &mut String<A>,
    span: Span,
    entries: &[Entry],
) -> Result<(), AllocError>
    ensures { OnOk result (Appends (flat_map (blank_step_if span) entries.now) text.old text.new) }
{
    for entry in entries {
        if entry.is_listed_in(span) {
            push_blank_step(text, entry)?;
        }
    }
    Ok(())
}

/// Adds the table of the instructions that the view of a cycle lists.
#[tactic(auto, unfolding(crate::specs::Blank::blank_status))]
pub fn push_blank_status<A: Allocator>(
    text: &mut String<A>,
    page: Span,
    entries: &[Entry],
    cycle: u64,
) -> Result<(), AllocError>
    ensures { OnOk result (Appends (blank_status page entries.now cycle) text.old text.new) }
{
    let span = listed_cycles(page, entries, cycle);
    text.push_str(status_head())?;
    push_blank_steps(text, span, entries)?;
    push_table_end(text)
}

#[tactic(auto, unfolding(crate::specs::Blank::blank_station))]
fn push_blank_station<A: Allocator>(
    text: &mut String<A>,
    pool: PoolId,
    number: u8,
) -> Result<(), AllocError>
    ensures { OnOk result (Appends (blank_station pool number) text.old text.new) }
{
    let name = Name(Some(Tag { pool, number }));
    write!(text, "<tr><th scope=\"row\">{name}</th>")?;
    text.push_str("<td></td><td></td><td></td><td></td><td></td><td></td><td></td>")?;
    write!(text, "</tr>\n")
}

fn push_blank_pool<A: Allocator>(
    text: &mut String<A>,
    config: &Config,
    pool: PoolId,
) -> Result<(), AllocError>
    ensures { OnOk result (Appends (blank_pool config.now pool) text.old text.new) }
{
    for number in 0..config.stations(pool) {
        push_blank_station(text, pool, number)?;
    }
    Ok(())
}

fn push_blank_pools<A: Allocator>(
    text: &mut String<A>,
    config: &Config,
    pools: &[PoolId],
) -> Result<(), AllocError>
    ensures { OnOk result (Appends (flat_map (blank_pool config.now) pools.now) text.old text.new) }
{
    for pool in pools {
        push_blank_pool(text, config, *pool)?;
    }
    Ok(())
}

/// Adds the table of the stations that a machine has.
#[tactic(auto, unfolding(crate::specs::Blank::blank_stations))]
pub fn push_blank_stations<A: Allocator>(
    text: &mut String<A>,
    config: &Config,
) -> Result<(), AllocError>
    ensures { OnOk result (Appends (blank_stations config.now) text.old text.new) }
{
    text.push_str(station_head())?;
    push_blank_pools(text, config, all_pools())?;
    push_table_end(text)
}

#[tactic(auto, unfolding(crate::specs::Blank::blank_register))]
fn push_blank_register<A: Allocator>(
    text: &mut String<A>,
    register: usize,
) -> Result<(), AllocError>
    ensures { OnOk result (Appends (blank_register register) text.old text.new) }
{
    write!(text, "<div><dt>x{register}</dt><dd></dd></div>\n")
}

/// Adds the registers from `from` to `to`, exclusive.
fn push_some_registers<A: Allocator>(
    text: &mut String<A>,
    from: usize,
    to: usize,
) -> Result<(), AllocError>
    ensures { OnOk result (
        Appends (flat_map blank_register (range_with_len from (to - from))) text.old text.new) }
{
    for register in from..to {
        push_blank_register(text, register)?;
    }
    Ok(())
}

/// Adds the names of the registers.
#[tactic(auto, unfolding(crate::specs::Blank::blank_registers))]
pub fn push_blank_registers<A: Allocator>(text: &mut String<A>) -> Result<(), AllocError>
    ensures { OnOk result (Appends blank_registers text.old text.new) }
{
    text.push_str("<div class=\"q\"><h3>Register status (Qi)</h3>\n<dl class=\"r\">\n")?;
    push_some_registers(text, 1, 32)?;
    write!(text, "</dl></div>\n")
}
