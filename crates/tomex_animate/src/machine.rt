//! The machine that a page shows, and the cycles of the page.

ghost use Rattle.std.specs.Prelude.{◌≡◌, ◌<◌, ◌^◌, OnOk, map};
ghost use Rattle.std.specs.List.{flat_map};
ghost use Rattle.tomex_config.specs.Configuration.{option_of, stations_of};
ghost use Rattle.tomex_layout.specs.Growth.{Appends};
ghost use Rattle.tomex_animate.specs.Machine.{all_kinds, cycles_of, index, index_link, machine_row, machine_rows};
ghost use Rattle.tomex_animate.specs.Machine.{machine_table, number_cell, shared_text};
ghost use Rattle.tomex_frames.specs.Stations.{all_pools};

use crate::constants::machine_head;
use std::alloc::{AllocError, Allocator};
use std::fmt::Write;
use tomex_config::Config;
use tomex_rvdec::{PoolId, UnitId};
use tomex_snapshots::Span;

/// Adds a cell for each number.
fn push_numbers<A: Allocator>(text: &mut String<A>, values: &[u8; 6]) -> Result<(), AllocError>
    ensures { OnOk result (Appends (flat_map number_cell values.now) text.old text.new) }
{
    for value in values {
        let value = *value;
        write!(text, "<td>{value}</td>")?;
    }
    Ok(())
}

#[tactic(auto, unfolding(crate::specs::Machine::machine_row))]
fn push_row<A: Allocator>(
    text: &mut String<A>,
    name: &str,
    values: &[u8; 6],
) -> Result<(), AllocError>
    ensures { OnOk result (Appends (machine_row name.now values.now) text.old text.new) }
{
    write!(text, "<tr><th scope=\"row\">{name}</th>")?;
    push_numbers(text, values)?;
    write!(text, "</tr>\n")
}

/// The stations of each pool.
#[tactic(auto, unfolding(tomex_frames::specs::Stations::all_pools))]
fn stations(config: &Config) -> [u8; 6]
    ensures { result ≡ map (stations_of config.now) all_pools }
{
    [
        config.stations(PoolId::Alu),
        config.stations(PoolId::Mul),
        config.stations(PoolId::Div),
        config.stations(PoolId::Load),
        config.stations(PoolId::Store),
        config.stations(PoolId::Bru),
    ]
}

/// The units of the kind that each pool's instructions use.
#[tactic(auto, unfolding(crate::specs::Machine::all_kinds))]
fn units(config: &Config) -> [u8; 6]
    ensures { result ≡ map (λ kind. (option_of config.now kind).units) all_kinds }
{
    let memory = config.units(UnitId::Mem);
    [
        config.units(UnitId::Alu),
        config.units(UnitId::Mul),
        config.units(UnitId::Div),
        memory,
        memory,
        config.units(UnitId::Bru),
    ]
}

/// The latency of the units of the kind that each pool's instructions use.
#[tactic(auto, unfolding(crate::specs::Machine::all_kinds))]
fn latencies(config: &Config) -> [u8; 6]
    ensures { result ≡ map (λ kind. (option_of config.now kind).latency) all_kinds }
{
    let memory = config.latency(UnitId::Mem);
    [
        config.latency(UnitId::Alu),
        config.latency(UnitId::Mul),
        config.latency(UnitId::Div),
        memory,
        memory,
        config.latency(UnitId::Bru),
    ]
}

#[tactic(auto, unfolding(crate::specs::Machine::machine_rows))]
fn push_rows<A: Allocator>(text: &mut String<A>, config: &Config) -> Result<(), AllocError>
    ensures { OnOk result (Appends (machine_rows config.now) text.old text.new) }
{
    push_row(text, "stations", &stations(config))?;
    push_row(text, "units", &units(config))?;
    push_row(text, "latency", &latencies(config))
}

/// Adds what all pools share.
#[tactic(auto, unfolding(crate::specs::Machine::shared_text))]
fn push_shared<A: Allocator>(text: &mut String<A>, buses: u8, width: u8) -> Result<(), AllocError>
    ensures { OnOk result (Appends (shared_text buses width) text.old text.new) }
{
    write!(
        text,
        "</tbody></table>\n<p>load and store share the units of memory. Data buses: {buses}"
    )?;
    write!(
        text,
        ". Instructions that issue in a cycle: {width}.</p></div>\n"
    )
}

/// Adds the machine's table.
#[tactic(auto, unfolding(crate::specs::Machine::machine_table))]
pub fn push_machine_table<A: Allocator>(
    text: &mut String<A>,
    config: &Config,
) -> Result<(), AllocError>
    ensures { OnOk result (Appends (machine_table config.now) text.old text.new) }
{
    let (head, buses, width) = (machine_head(), config.buses(), config.width());
    write!(text, "<div class=\"w\">{head}")?;
    push_rows(text, config)?;
    push_shared(text, buses, width)
}

#[tactic(auto, unfolding(crate::specs::Machine::index_link))]
fn push_index_link<A: Allocator>(text: &mut String<A>, cycle: u64) -> Result<(), AllocError>
    ensures { OnOk result (Appends (index_link cycle) text.old text.new) }
{
    write!(text, "<a href=\"#c{cycle}\">{cycle}</a>\n")
}

/// Adds a link to each cycle.
#[tactic(auto, unfolding(crate::specs::Machine::cycles_of))]
fn push_index_links<A: Allocator>(text: &mut String<A>, page: Span) -> Result<(), AllocError>
    requires { page.to < 2 ^ 63 }
    ensures { OnOk result (Appends (flat_map index_link (cycles_of page)) text.old text.new) }
{
    let Span { from, to } = page;
    for cycle in from..=to {
        push_index_link(text, cycle)?;
    }
    Ok(())
}

/// Adds the cycles of a page.
#[tactic(auto, unfolding(crate::specs::Machine::index))]
pub fn push_index<A: Allocator>(text: &mut String<A>, page: Span) -> Result<(), AllocError>
    requires { page.to < 2 ^ 63 }
    ensures { OnOk result (Appends (index page) text.old text.new) }
{
    text.push_str("<div><h2>Cycles</h2>\n<p class=\"i\">\n")?;
    push_index_links(text, page)?;
    write!(text, "</p></div>\n")
}
