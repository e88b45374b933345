//! The register status.

ghost use Rattle.std.specs.Prelude.{◌<◌, ◌≤◌, ◌-◌, OnOk};
ghost use Rattle.std.specs.List.{flat_map, range_with_len};
ghost use Rattle.tomex_layout.specs.Growth.{Appends};
ghost use Rattle.tomex_snapshots.specs.Entries.{history_of};
ghost use Rattle.tomex_frames.specs.Stations.{register_at, register_cell, register_status, registers_text};

use std::alloc::{AllocError, Allocator};
use std::fmt::Write;
use tomex_snapshots::{Name, View, same_name};
use tomex_timing::Tag;

/// Adds a register, which is marked if its Qi has changed.
#[tactic(auto, unfolding(crate::specs::Stations::register_cell))]
fn push_register<A: Allocator>(
    text: &mut String<A>,
    register: usize,
    was: Option<Tag>,
    now: Option<Tag>,
) -> Result<(), AllocError>
    ensures { OnOk result (Appends (register_cell register was now) text.old text.new) }
{
    let qi = Name(now);
    if same_name(was, now) {
        write!(text, "<div><dt>x{register}</dt><dd>{qi}</dd></div>\n")
    } else {
        write!(
            text,
            "<div class=\"n\"><dt>x{register}</dt><dd>{qi}</dd></div>\n"
        )
    }
}

#[tactic(auto, unfolding(crate::specs::Stations::register_at))]
fn push_register_at<A: Allocator>(
    text: &mut String<A>,
    view: &View<'_>,
    register: usize,
) -> Result<(), AllocError>
    requires { register < 32 }
    ensures { OnOk result (
        Appends (register_at view.now.cycle (history_of view.now.entries.now) register) text.old text.new) }
{
    let was = view.snapshots.before.registers[register];
    let now = view.snapshots.now.registers[register];
    push_register(text, register, was, now)
}

/// Adds the registers from `from` to `to`, exclusive.
fn push_some<A: Allocator>(
    text: &mut String<A>,
    view: &View<'_>,
    from: usize,
    to: usize,
) -> Result<(), AllocError>
    requires { to ≤ 32 }
    ensures { OnOk result (Appends
        (flat_map (register_at view.now.cycle (history_of view.now.entries.now)) (range_with_len from (to - from)))
        text.old text.new) }
{
    for register in from..to {
        push_register_at(text, view, register)?;
    }
    Ok(())
}

/// Adds x1 to x31.
#[tactic(auto, unfolding(crate::specs::Stations::registers_text))]
fn push_registers<A: Allocator>(text: &mut String<A>, view: &View<'_>) -> Result<(), AllocError>
    ensures { OnOk result (
        Appends (registers_text view.now.cycle (history_of view.now.entries.now)) text.old text.new) }
{
    push_some(text, view, 1, 32)
}

/// Adds the register status.
#[tactic(auto, unfolding(crate::specs::Stations::register_status))]
pub fn push_register_status<A: Allocator>(
    text: &mut String<A>,
    view: &View<'_>,
) -> Result<(), AllocError>
    ensures { OnOk result (
        Appends (register_status view.now.cycle (history_of view.now.entries.now)) text.old text.new) }
{
    text.push_str("<div class=\"q\"><h3>Register status (Qi)</h3>\n<dl class=\"r\">\n")?;
    push_registers(text, view)?;
    write!(text, "</dl></div>\n")
}
