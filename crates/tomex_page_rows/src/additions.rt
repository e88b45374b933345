//! The table of what choices that the lists lack would bring.

ghost use Rattle.std.specs.Prelude.{◌≡◌, OnOk};
ghost use Rattle.std.specs.List.{flat_map};
ghost use Rattle.tomex_layout.specs.Growth.{Appends};
ghost use Rattle.tomex_html.specs.Html.{td};
ghost use Rattle.tomex_choices_table.specs.ChoicesTable.{percent_cell};
ghost use Rattle.tomex_page_rows.specs.Additions.{addition_cells, addition_row, additions_cell, choices_table};
ghost use Rattle.tomex_page_rows.specs.Additions.{cost_cell, enough_cell, saving_cells};

use crate::lists::push_choices_cell;
use std::alloc::{AllocError, Allocator};
use tomex_choices_table::push_saving;
use tomex_config::{Part, Prices};
use tomex_html::{push_empty, push_number, push_table_end, push_table_head};
use tomex_page_tables::push_list_start;
use tomex_study::{ListReport, Saving};

/// Adds a cell with a saving's percentage.
fn push_percent_cell<A: Allocator>(
    text: &mut String<A>,
    saving: Option<Saving>,
) -> Result<(), AllocError>
    ensures { OnOk result (Appends (td (percent_cell saving)) text.old text.new) }
{
    text.push_str("<td>")?;
    push_saving(text, saving)?;
    text.push_str("</td>")
}

/// Adds a cell with a saving's cost, if there is one.
fn push_cost_cell<A: Allocator>(
    text: &mut String<A>,
    saving: Option<Saving>,
) -> Result<(), AllocError>
    ensures { OnOk result (Appends (cost_cell saving) text.old text.new) }
{
    match saving {
        Some(saving) => push_number(text, saving.cost),
        None => push_empty(text),
    }
}

/// Adds a saving's percentage, and its cost.
fn push_saving_cells<A: Allocator>(
    text: &mut String<A>,
    saving: Option<Saving>,
) -> Result<(), AllocError>
    ensures { OnOk result (Appends (saving_cells saving) text.old text.new) }
{
    push_percent_cell(text, saving)?;
    push_cost_cell(text, saving)
}

/// Adds a cell with the number of a part that is enough, unless it is the most.
fn push_enough_cell<A: Allocator>(
    text: &mut String<A>,
    part: Part,
    enough: u8,
) -> Result<(), AllocError>
    ensures { OnOk result (Appends (enough_cell part enough) text.old text.new) }
{
    if enough == part.most() {
        push_empty(text)
    } else {
        push_number(text, u64::from(enough))
    }
}

/// Adds a cell with the choices that are worth adding to a list.
fn push_additions_cell<A: Allocator>(
    text: &mut String<A>,
    prices: &Prices,
    list: &ListReport,
) -> Result<(), AllocError>
    ensures { OnOk result (Appends (additions_cell prices.now list.now) text.old text.new) }
{
    push_choices_cell(text, prices, list.part, list.additions.as_slice())
}

fn push_addition_cells<A: Allocator>(
    text: &mut String<A>,
    prices: &Prices,
    list: &ListReport,
) -> Result<(), AllocError>
    ensures { OnOk result (Appends (addition_cells prices.now list.now) text.old text.new) }
{
    push_additions_cell(text, prices, list)?;
    push_saving_cells(text, list.saving)?;
    push_enough_cell(text, list.part, list.enough)
}

#[tactic(auto, unfolding(crate::specs::Additions::addition_row, tomex_html::specs::Tables::table_row))]
fn push_addition_row<A: Allocator>(
    text: &mut String<A>,
    prices: &Prices,
    list: &ListReport,
) -> Result<(), AllocError>
    ensures { OnOk result (Appends (addition_row prices.now list.now) text.old text.new) }
{
    push_list_start(text, list.part)?;
    push_addition_cells(text, prices, list)?;
    text.push_str("</tr>\n")
}

fn push_addition_rows<A: Allocator>(
    text: &mut String<A>,
    prices: &Prices,
    lists: &[ListReport],
) -> Result<(), AllocError>
    ensures { OnOk result (Appends (flat_map (addition_row prices.now) lists.now) text.old text.new) }
{
    for list in lists {
        push_addition_row(text, prices, list)?;
    }
    Ok(())
}

/// Adds the table of what choices that the lists lack would bring: for each list those that are worth adding, what they
/// save and at which cost, and how many of the part are enough.
#[tactic(auto, unfolding(crate::specs::Additions::choices_table))]
pub fn push_choices_table<A: Allocator>(
    text: &mut String<A>,
    prices: &Prices,
    lists: &[ListReport],
) -> Result<(), AllocError>
    ensures { OnOk result (Appends (choices_table prices.now lists.now) text.old text.new) }
{
    let caption = "What choices that the lists lack would bring";
    let names = [
        "Part",
        "Would join the front",
        "% of cycles",
        "At cost",
        "Enough",
    ];
    push_table_head(text, " class=\"a x\"", caption, &names)?;
    push_addition_rows(text, prices, lists)?;
    push_table_end(text)
}
