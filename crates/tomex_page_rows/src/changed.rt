//! The gain from changing one part.

ghost use Rattle.std.specs.Prelude.{◌<◌, ◌++◌, length, All, OnOk};
ghost use Rattle.std.specs.List.{flat_map};
ghost use Rattle.tomex_layout.specs.Growth.{Appends};
ghost use Rattle.tomex_html.specs.Html.{td};
ghost use Rattle.tomex_page_rows.specs.Changed.{change_row, changes_table, gain_cells, to_cells};
ghost use Rattle.tomex_page_tables.specs.Front.{row_text};
ghost use Rattle.tomex_layout.specs.Rates.{rate_text};

use crate::parts::push_entry_cell;
use std::alloc::{AllocError, Allocator, Global};
use std::fmt::Write;
use tomex_html::{push_table_end, push_table_head};
use tomex_layout::push_rate;
use tomex_page_tables::{
    first_lines, push_list_start, push_more, push_percent_cell, push_row_text, push_signed_cell,
};
use tomex_pareto::FrontRow;
use tomex_study::Surveyed;
use tomex_worth::{Change, changes_of};

/// Adds a cell with a row's number, which is a link if the row is shown.
fn push_row_cell<A: Allocator>(
    text: &mut String<A>,
    shown: &[FrontRow],
    row: usize,
) -> Result<(), AllocError>
    ensures { OnOk result (Appends (td (row_text shown.now row)) text.old text.new) }
{
    text.push_str("<td>")?;
    push_row_text(text, shown, row)?;
    text.push_str("</td>")
}

/// Adds a cell with the cycles for 1 of cost between two rows.
fn push_rate_cell<A: Allocator>(
    text: &mut String<A>,
    own: FrontRow,
    other: FrontRow,
) -> Result<(), AllocError>
    ensures { OnOk result (Appends (td (rate_text own other)) text.old text.new) }
{
    text.push_str("<td>")?;
    push_rate(text, own, other)?;
    text.push_str("</td>")
}

/// Adds what a change leads to: the other entry, and the other row.
#[tactic(auto, unfolding(crate::specs::Changed::to_cells))]
fn push_to_cells<A: Allocator, B: Allocator>(
    text: &mut String<A>,
    surveyed: &Surveyed<'_, B>,
    shown: &[FrontRow],
    change: Change,
) -> Result<(), AllocError>
    requires { change.row.row < length surveyed.now.rows }
    ensures { OnOk result (Appends (to_cells surveyed.now shown.now change) text.old text.new) }
{
    let number = change.row.row;
    push_entry_cell(text, false, surveyed.config(number), change.part)?;
    push_row_cell(text, shown, number)
}

/// Adds by how much the other row's cost and cycles are greater, and the cycles for 1 of cost.
#[tactic(auto, unfolding(crate::specs::Changed::gain_cells))]
fn push_gain_cells<A: Allocator>(
    text: &mut String<A>,
    own: FrontRow,
    other: FrontRow,
) -> Result<(), AllocError>
    ensures { OnOk result (Appends (gain_cells own other) text.old text.new) }
{
    push_signed_cell(text, own.cost, other.cost)?;
    push_signed_cell(text, own.cycles, other.cycles)?;
    push_percent_cell(text, own.cycles, other.cycles)?;
    push_rate_cell(text, own, other)
}

/// Adds the cells of a change.
fn push_change_cells<A: Allocator, B: Allocator>(
    text: &mut String<A>,
    surveyed: &Surveyed<'_, B>,
    shown: &[FrontRow],
    own: FrontRow,
    change: Change,
) -> Result<(), AllocError>
    requires { change.row.row < length surveyed.now.rows }
    ensures { OnOk result (
        Appends (to_cells surveyed.now shown.now change ++ gain_cells own change.row) text.old text.new) }
{
    push_to_cells(text, surveyed, shown, change)?;
    push_gain_cells(text, own, change.row)
}

#[tactic(auto, unfolding(crate::specs::Changed::change_row, tomex_html::specs::Tables::table_row))]
fn push_change_row<A: Allocator, B: Allocator>(
    text: &mut String<A>,
    surveyed: &Surveyed<'_, B>,
    shown: &[FrontRow],
    own: FrontRow,
    change: Change,
) -> Result<(), AllocError>
    requires { change.row.row < length surveyed.now.rows }
    ensures { OnOk result (Appends (change_row surveyed.now shown.now own change) text.old text.new) }
{
    push_list_start(text, change.part)?;
    push_change_cells(text, surveyed, shown, own, change)?;
    text.push_str("</tr>\n")
}

fn push_change_rows<A: Allocator, B: Allocator>(
    text: &mut String<A>,
    surveyed: &Surveyed<'_, B>,
    shown: &[FrontRow],
    own: FrontRow,
    changes: &[Change],
) -> Result<(), AllocError>
    requires { All (λ c. c.row.row < length surveyed.now.rows) changes.now }
    ensures { OnOk result (Appends (flat_map (change_row surveyed.now shown.now own) changes.now) text.old text.new) }
{
    for change in changes {
        push_change_row(text, surveyed, shown, own, *change)?;
    }
    Ok(())
}

/// Adds the table of the gains from changing one part of a row.
#[tactic(auto, unfolding(crate::specs::Changed::changes_table))]
pub fn push_changes_table<A: Allocator, B: Allocator>(
    text: &mut String<A>,
    heap: Global,
    surveyed: &Surveyed<'_, B>,
    shown: &[FrontRow],
    own: FrontRow,
) -> Result<(), AllocError>
    requires { own.row < length surveyed.now.rows }
    ensures { OnOk result (Appends (changes_table surveyed.now shown.now own) text.old text.new) }
{
    let changes = changes_of(heap, surveyed, own)?;
    let lines = changes.as_slice();
    let names = ["Part", "To", "Row", "Cost", "Cycles", "%", "Rate"];
    text.push_str("<div>")?;
    push_table_head(text, " class=\"a\"", "With one part changed", &names)?;
    push_change_rows(text, surveyed, shown, own, first_lines(lines))?;
    push_table_end(text)?;
    push_more(text, "worth", lines.len())?;
    write!(text, "</div>\n")
}
