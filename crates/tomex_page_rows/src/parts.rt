//! A row's parts, and its differences from the row before.

ghost use Rattle.std.specs.Prelude.{◌≡◌, OnOk};
ghost use Rattle.std.specs.List.{flat_map};
ghost use Rattle.tomex_layout.specs.Growth.{Appends};
ghost use Rattle.tomex_html.specs.Html.{cell, td};
ghost use Rattle.tomex_page_rows.specs.Parts.{against, against_start, against_text, cheapest, cost_row, has_other};
ghost use Rattle.tomex_page_rows.specs.Parts.{part_cells, part_row, parts_table, was_text};
ghost use Rattle.tomex_layout.specs.Lists.{entry_text};

use std::alloc::{AllocError, Allocator};
use std::fmt::Write;
use tomex_config::{Config, Part, Prices, cost_of_part, same_entry};
use tomex_html::{cell_start, push_empty, push_number, push_table_end, push_table_head};
use tomex_layout::{push_entry, push_percent, push_signed};
use tomex_page_tables::{ShownRow, all_parts, push_list_start};

/// Adds the start of the differences, up to that of cost.
#[tactic(auto, unfolding(crate::specs::Parts::against_start))]
fn push_against_start<A: Allocator>(text: &mut String<A>, row: usize) -> Result<(), AllocError>
    ensures { OnOk result (Appends (against_start row) text.old text.new) }
{
    write!(text, "<p>Against row {row}: cost ")
}

/// Adds the differences of a row from the one before.
#[tactic(auto, unfolding(crate::specs::Parts::against_text))]
fn push_differences<A: Allocator>(
    text: &mut String<A>,
    before: &ShownRow,
    row: &ShownRow,
) -> Result<(), AllocError>
    ensures { OnOk result (Appends (against_text before.now row.now) text.old text.new) }
{
    push_against_start(text, before.row.row)?;
    push_signed(text, before.row.cost, row.row.cost)?;
    text.push_str(", cycles ")?;
    push_signed(text, before.row.cycles, row.row.cycles)?;
    text.push_str(", ")?;
    push_percent(text, before.row.cycles, row.row.cycles)?;
    text.push_str("%.</p>\n")
}

/// Adds that there is no row before.
#[tactic(auto, unfolding(crate::specs::Parts::cheapest))]
fn push_cheapest<A: Allocator>(text: &mut String<A>) -> Result<(), AllocError>
    ensures { OnOk result (Appends cheapest text.old text.new) }
{
    text.push_str("<p>The cheapest row of the front.</p>\n")
}

/// Adds the differences of a row from the one before, if there is one.
pub fn push_against<A: Allocator>(
    text: &mut String<A>,
    before: &Option<ShownRow>,
    row: &ShownRow,
) -> Result<(), AllocError>
    ensures { OnOk result (Appends (against before.now row.now) text.old text.new) }
{
    match before {
        Some(before) => push_differences(text, before, row),
        None => push_cheapest(text),
    }
}

/// True if the row before has another entry in a part's list.
fn has_other(before: &Option<ShownRow>, row: &ShownRow, part: Part) -> bool
    ensures { result ≡ has_other before.now row.now part }
{
    match before {
        Some(before) => !same_entry(&before.config, &row.config, part),
        None => false,
    }
}

/// Adds a cell with a configuration's entry in a part's list.
pub fn push_entry_cell<A: Allocator>(
    text: &mut String<A>,
    new: bool,
    config: &Config,
    part: Part,
) -> Result<(), AllocError>
    ensures { OnOk result (Appends (cell new (entry_text config.now part)) text.old text.new) }
{
    text.push_str(cell_start(new))?;
    push_entry(text, config, part)?;
    text.push_str("</td>")
}

/// Adds a cell with the entry of the row before, if it is another one.
fn push_was<A: Allocator>(
    text: &mut String<A>,
    before: &Option<ShownRow>,
    row: &ShownRow,
    part: Part,
) -> Result<(), AllocError>
    ensures { OnOk result (Appends (td (was_text before.now row.now part)) text.old text.new) }
{
    match before {
        Some(before) => {
            if same_entry(&before.config, &row.config, part) {
                push_empty(text)
            } else {
                push_entry_cell(text, false, &before.config, part)
            }
        }
        None => push_empty(text),
    }
}

/// Adds a row's entry for a part, that of the row before, and what it costs.
#[tactic(auto, unfolding(crate::specs::Parts::part_cells))]
fn push_part_cells<A: Allocator>(
    text: &mut String<A>,
    prices: &Prices,
    before: &Option<ShownRow>,
    row: &ShownRow,
    part: Part,
) -> Result<(), AllocError>
    ensures { OnOk result (Appends (part_cells prices.now before.now row.now part) text.old text.new) }
{
    push_was(text, before, row, part)?;
    push_entry_cell(text, has_other(before, row, part), &row.config, part)?;
    push_number(text, cost_of_part(prices, &row.config, part))
}

#[tactic(auto, unfolding(crate::specs::Parts::part_row, tomex_html::specs::Tables::table_row))]
fn push_part_row<A: Allocator>(
    text: &mut String<A>,
    prices: &Prices,
    before: &Option<ShownRow>,
    row: &ShownRow,
    part: Part,
) -> Result<(), AllocError>
    ensures { OnOk result (Appends (part_row prices.now before.now row.now part) text.old text.new) }
{
    push_list_start(text, part)?;
    push_part_cells(text, prices, before, row, part)?;
    text.push_str("</tr>\n")
}

fn push_part_rows<A: Allocator>(
    text: &mut String<A>,
    prices: &Prices,
    before: &Option<ShownRow>,
    row: &ShownRow,
    parts: &[Part],
) -> Result<(), AllocError>
    ensures { OnOk result (Appends (flat_map (part_row prices.now before.now row.now) parts.now) text.old text.new) }
{
    for part in parts {
        push_part_row(text, prices, before, row, *part)?;
    }
    Ok(())
}

/// Adds the line of the cost of all parts.
#[tactic(auto, unfolding(crate::specs::Parts::cost_row))]
fn push_cost_row<A: Allocator>(text: &mut String<A>, cost: u64) -> Result<(), AllocError>
    ensures { OnOk result (Appends (cost_row cost) text.old text.new) }
{
    write!(
        text,
        "<tr><th scope=\"row\">all</th><td></td><td></td><td>{cost}</td></tr>\n"
    )
}

/// Adds the table of a row's parts.
#[tactic(auto, unfolding(crate::specs::Parts::parts_table))]
pub fn push_parts_table<A: Allocator>(
    text: &mut String<A>,
    prices: &Prices,
    before: &Option<ShownRow>,
    row: &ShownRow,
) -> Result<(), AllocError>
    ensures { OnOk result (Appends (parts_table prices.now before.now row.now) text.old text.new) }
{
    let names = ["Part", "Was", "Has", "Costs"];
    push_table_head(text, " class=\"a\"", "Its parts", &names)?;
    push_part_rows(text, prices, before, row, all_parts())?;
    push_cost_row(text, row.row.cost)?;
    push_table_end(text)
}
