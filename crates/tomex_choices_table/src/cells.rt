//! The texts of a list's cells.

ghost use Rattle.std.specs.Prelude.{◌≡◌, ◌++◌, map, IfOk, OnOk, string_bytes};
ghost use Rattle.std.specs.List.{flat_map};
ghost use Rattle.tomex_layout.specs.Growth.{Appends};
ghost use Rattle.tomex_choices_table.specs.ChoicesTable.{after_comma, cost_cell, enough_cell, entries_cell};
ghost use Rattle.tomex_choices_table.specs.ChoicesTable.{percent_cell};

use std::alloc::{AllocError, Allocator, Global};
use std::fmt::Write;
use tomex_config::{Config, Part};
use tomex_layout::{push_entry, push_percent};
use tomex_study::Saving;

/// Adds configurations' entries in a part's list, each after a comma.
#[tactic(auto, unfolding(crate::specs::ChoicesTable::after_comma))]
fn push_others<A: Allocator>(
    text: &mut String<A>,
    part: Part,
    configs: &[Config],
) -> Result<(), AllocError>
    ensures { OnOk result (Appends (flat_map (after_comma part) configs.now) text.old text.new) }
{
    for config in configs {
        text.push_str(",")?;
        push_entry(text, config, part)?;
    }
    Ok(())
}

/// Adds the entries of some configurations in a part's list, joined by commas, or `-`.
#[tactic(auto, unfolding(crate::specs::ChoicesTable::entries_cell))]
pub fn push_entries<A: Allocator>(
    text: &mut String<A>,
    part: Part,
    configs: &[Config],
) -> Result<(), AllocError>
    ensures { OnOk result (Appends (entries_cell part configs.now) text.old text.new) }
{
    if let [first, rest @ ..] = configs {
        push_entry(text, first, part)?;
        return push_others(text, part, rest);
    }
    text.push_str("-")
}

/// Adds a saving in percent of what its cost buys now, or `0`.
pub fn push_saving<A: Allocator>(
    text: &mut String<A>,
    saving: Option<Saving>,
) -> Result<(), AllocError>
    ensures { OnOk result (Appends (percent_cell saving) text.old text.new) }
{
    match saving {
        Some(saving) => push_percent(text, saving.now, saving.new),
        None => text.push_str("0"),
    }
}

/// Adds the cost of a saving, or `-`.
pub fn push_cost<A: Allocator>(
    text: &mut String<A>,
    saving: Option<Saving>,
) -> Result<(), AllocError>
    ensures { OnOk result (Appends (cost_cell saving) text.old text.new) }
{
    match saving {
        Some(saving) => {
            let cost = saving.cost;
            write!(text, "{cost}")
        }
        None => text.push_str("-"),
    }
}

/// Adds the number of a part that is enough, or `-` if it is the most.
pub fn push_enough<A: Allocator>(
    text: &mut String<A>,
    part: Part,
    enough: u8,
) -> Result<(), AllocError>
    ensures { OnOk result (Appends (enough_cell part enough) text.old text.new) }
{
    if enough == part.most() {
        text.push_str("-")
    } else {
        write!(text, "{enough}")
    }
}
