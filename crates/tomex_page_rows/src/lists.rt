//! The table of the lists of parts.

ghost use Rattle.std.specs.Prelude.{◌≡◌, ◌++◌, OnOk};
ghost use Rattle.std.specs.List.{flat_map};
ghost use Rattle.tomex_layout.specs.Growth.{Appends};
ghost use Rattle.tomex_html.specs.Html.{td};
ghost use Rattle.tomex_page_rows.specs.Lists.{choices_text, list_cells, list_row, lists_table, price_cells};
ghost use Rattle.tomex_page_rows.specs.Lists.{unused_cell};

use std::alloc::{AllocError, Allocator, Global};
use tomex_config::{Config, Part, Prices};
use tomex_html::{push_table_end, push_table_head};
use tomex_page_tables::{Facet, all_parts, push_entries, push_list_start, push_prices, push_some};
use tomex_study::{Study, Surveyed, unused};

/// Adds a cell with the texts of some configurations' entries in a part's list.
pub(crate) fn push_choices_cell<A: Allocator>(
    text: &mut String<A>,
    prices: &Prices,
    part: Part,
    configs: &[Config],
) -> Result<(), AllocError>
    ensures { OnOk result (Appends (td (choices_text prices.now part configs.now)) text.old text.new) }
{
    text.push_str("<td>")?;
    push_some(text, prices, Facet::Choice, part, configs)?;
    text.push_str("</td>")
}

/// Adds the entries of a part's list, and what they cost.
fn push_price_cells<A: Allocator, B: Allocator>(
    text: &mut String<A>,
    heap: Global,
    study: &Study<B>,
    part: Part,
) -> Result<(), AllocError>
    ensures { OnOk result (Appends (price_cells study.now part) text.old text.new) }
{
    text.push_str("<td>")?;
    push_entries(text, heap, study, Facet::Choice, part)?;
    text.push_str("</td><td>")?;
    push_prices(text, heap, study, part)?;
    text.push_str("</td>")
}

/// Adds the choices of a part's list that no row of the front has.
fn push_unused_cell<A: Allocator, B: Allocator>(
    text: &mut String<A>,
    heap: Global,
    surveyed: &Surveyed<'_, B>,
    part: Part,
) -> Result<(), AllocError>
    ensures { OnOk result (Appends (unused_cell surveyed.now part) text.old text.new) }
{
    let unused = unused(heap, surveyed, part)?;
    push_choices_cell(text, &surveyed.study().prices(), part, unused.as_slice())
}

fn push_list_cells<A: Allocator, B: Allocator>(
    text: &mut String<A>,
    heap: Global,
    surveyed: &Surveyed<'_, B>,
    part: Part,
) -> Result<(), AllocError>
    ensures { OnOk result (Appends (list_cells surveyed.now part) text.old text.new) }
{
    push_price_cells(text, heap, surveyed.study(), part)?;
    push_unused_cell(text, heap, surveyed, part)
}

#[tactic(auto, unfolding(crate::specs::Lists::list_row, tomex_html::specs::Tables::table_row))]
fn push_list_row<A: Allocator, B: Allocator>(
    text: &mut String<A>,
    heap: Global,
    surveyed: &Surveyed<'_, B>,
    part: Part,
) -> Result<(), AllocError>
    ensures { OnOk result (Appends (list_row surveyed.now part) text.old text.new) }
{
    push_list_start(text, part)?;
    push_list_cells(text, heap, surveyed, part)?;
    text.push_str("</tr>\n")
}

fn push_list_rows<A: Allocator, B: Allocator>(
    text: &mut String<A>,
    heap: Global,
    surveyed: &Surveyed<'_, B>,
    parts: &[Part],
) -> Result<(), AllocError>
    ensures { OnOk result (Appends (flat_map (list_row surveyed.now) parts.now) text.old text.new) }
{
    for part in parts {
        push_list_row(text, heap, surveyed, *part)?;
    }
    Ok(())
}

/// Adds the table of the lists of parts: for each of them the choices, what they cost, and which of them no row of the
/// front has.
#[tactic(auto, unfolding(crate::specs::Lists::lists_table))]
pub fn push_lists_table<A: Allocator, B: Allocator>(
    text: &mut String<A>,
    heap: Global,
    surveyed: &Surveyed<'_, B>,
) -> Result<(), AllocError>
    ensures { OnOk result (Appends (lists_table surveyed.now) text.old text.new) }
{
    let names = ["Part", "Choices", "Price", "On no front row"];
    push_table_head(text, " class=\"x\"", "Parts, and the price of each", &names)?;
    push_list_rows(text, heap, surveyed, all_parts())?;
    push_table_end(text)
}
