//! The front as a table, in which a row's differences are from the row above.

ghost use Rattle.std.specs.Prelude.{◌≡◌, ◌<◌, length, string_bytes, All, IfOk, None, OnOk};
ghost use Rattle.std.specs.Fmt.{decimal};
ghost use Rattle.tomex_layout.specs.Growth.{Appends};
ghost use Rattle.tomex_front_views.specs.LinkedPlot.{link_to};
ghost use Rattle.tomex_html.specs.Html.{td};
ghost use Rattle.tomex_page_tables.specs.Front.{front_cells, front_row, front_row_start, front_rows, front_table};
ghost use Rattle.tomex_page_tables.specs.Front.{hull_mark, more_cost, more_cycles, more_percent, own_cells};
ghost use Rattle.tomex_page_tables.specs.Front.{rate_cell, rate_in, row_text, settings_of};
ghost use Rattle.tomex_page_tables.specs.Shown.{row_of};
ghost use Rattle.tomex_layout.specs.Differences.{percent, signed_difference};

use crate::settings::{own_totals, push_front_heads, push_setting_cells, settings_of};
use crate::shown::{ShownRow, row_of};
use std::alloc::{AllocError, Allocator, Global};
use std::fmt::Write;
use tomex_config::Setting;
use tomex_front_views::{push_link_start, rate_after};
use tomex_html::{
    push_empty, push_head_end, push_number, push_numbers, push_table_end, push_table_start,
};
use tomex_layout::{push_percent, push_signed};
use tomex_pareto::{FrontRow, is_on};
use tomex_study::Surveyed;

/// Adds a cell with the difference from `a` to `b`.
pub fn push_signed_cell<A: Allocator>(
    text: &mut String<A>,
    a: u64,
    b: u64,
) -> Result<(), AllocError>
    ensures { OnOk result (Appends (td (signed_difference a b)) text.old text.new) }
{
    text.push_str("<td>")?;
    push_signed(text, a, b)?;
    text.push_str("</td>")
}

/// Adds a cell with the difference in percent of `a`.
pub fn push_percent_cell<A: Allocator>(
    text: &mut String<A>,
    a: u64,
    b: u64,
) -> Result<(), AllocError>
    ensures { OnOk result (Appends (td (percent a b)) text.old text.new) }
{
    text.push_str("<td>")?;
    push_percent(text, a, b)?;
    text.push_str("</td>")
}

/// Adds the cost that a row has more than the one before; the first has none before it.
fn push_more_cost<A: Allocator>(
    text: &mut String<A>,
    before: &Option<ShownRow>,
    row: &ShownRow,
) -> Result<(), AllocError>
    ensures { OnOk result (Appends (td (more_cost before.now row.now)) text.old text.new) }
{
    match before {
        Some(before) => push_signed_cell(text, before.row.cost, row.row.cost),
        None => push_empty(text),
    }
}

/// Adds the cycles that a row takes more than the one before.
fn push_more_cycles<A: Allocator>(
    text: &mut String<A>,
    before: &Option<ShownRow>,
    row: &ShownRow,
) -> Result<(), AllocError>
    ensures { OnOk result (Appends (td (more_cycles before.now row.now)) text.old text.new) }
{
    match before {
        Some(before) => push_signed_cell(text, before.row.cycles, row.row.cycles),
        None => push_empty(text),
    }
}

/// Adds the same in percent.
fn push_more_percent<A: Allocator>(
    text: &mut String<A>,
    before: &Option<ShownRow>,
    row: &ShownRow,
) -> Result<(), AllocError>
    ensures { OnOk result (Appends (td (more_percent before.now row.now)) text.old text.new) }
{
    match before {
        Some(before) => push_percent_cell(text, before.row.cycles, row.row.cycles),
        None => push_empty(text),
    }
}

/// Adds a row's cost and cycles, and the differences of each from the row before.
#[tactic(auto, unfolding(crate::specs::Front::own_cells))]
fn push_own_cells<A: Allocator>(
    text: &mut String<A>,
    before: &Option<ShownRow>,
    row: &ShownRow,
) -> Result<(), AllocError>
    ensures { OnOk result (Appends (own_cells before.now row.now) text.old text.new) }
{
    push_number(text, row.row.cost)?;
    push_more_cost(text, before, row)?;
    push_number(text, row.row.cycles)?;
    push_more_cycles(text, before, row)?;
    push_more_percent(text, before, row)
}

/// Adds a row's number as a link to the row's view.
#[tactic(auto, unfolding(tomex_front_views::specs::LinkedPlot::link_to))]
fn push_row_link<A: Allocator>(text: &mut String<A>, row: usize) -> Result<(), AllocError>
    ensures { OnOk result (Appends (link_to row (decimal row)) text.old text.new) }
{
    push_link_start(text, row)?;
    write!(text, "{row}</a>")
}

/// Adds a row's number, which is a link if the row is shown.
#[tactic(auto, unfolding(crate::specs::Front::row_text))]
pub fn push_row_text<A: Allocator>(
    text: &mut String<A>,
    shown: &[FrontRow],
    row: usize,
) -> Result<(), AllocError>
    ensures { OnOk result (Appends (row_text shown.now row) text.old text.new) }
{
    if is_on(shown, row) {
        push_row_link(text, row)
    } else {
        write!(text, "{row}")
    }
}

/// The rate of the row of this number after the one before it; empty if it is none of these rows.
fn rate_in(heap: Global, rows: &[FrontRow], number: usize) -> Result<String, AllocError>
    ensures { IfOk result (λ text. string_bytes text ≡ rate_in None rows.now number) }
{
    let mut before = None;
    for row in rows {
        if row.row == number {
            return rate_after(heap, before, *row);
        }
        before = Some(*row);
    }
    Ok(String::new(heap))
}

/// Adds the rate of a row of the hull.
#[tactic(auto, unfolding(crate::specs::Front::rate_cell, tomex_html::specs::Html::td))]
fn push_rate_cell<A: Allocator>(
    text: &mut String<A>,
    heap: Global,
    hull: &[FrontRow],
    row: &ShownRow,
) -> Result<(), AllocError>
    ensures { OnOk result (Appends (rate_cell hull.now row.now) text.old text.new) }
{
    let rate = rate_in(heap, hull, row.row.row)?;
    write!(text, "<td>{rate}</td>")
}

/// The mark of what is of a row on the hull.
pub fn hull_mark(hull: &[FrontRow], row: usize) -> &'static str
    ensures { result.now ≡ hull_mark hull.now row }
{
    if is_on(hull, row) { " class=\"h\"" } else { "" }
}

/// Adds the start of a row, whose head is a row's number.
#[tactic(auto, unfolding(crate::specs::Front::front_row_start))]
fn push_row_start<A: Allocator>(
    text: &mut String<A>,
    hull: &[FrontRow],
    row: usize,
) -> Result<(), AllocError>
    ensures { OnOk result (Appends (front_row_start hull.now row) text.old text.new) }
{
    let mark = hull_mark(hull, row);
    write!(text, "<tr{mark}><th scope=\"row\">")?;
    push_row_link(text, row)?;
    write!(text, "</th>")
}

#[tactic(auto, unfolding(crate::specs::Front::front_cells))]
fn push_front_cells<A: Allocator, B: Allocator>(
    text: &mut String<A>,
    heap: Global,
    surveyed: &Surveyed<'_, B>,
    settings: &[Setting],
    hull: &[FrontRow],
    before: &Option<ShownRow>,
    row: FrontRow,
) -> Result<(), AllocError>
    requires row { row.row < length surveyed.now.rows }
    requires settings { settings.now ≡ settings_of surveyed.now }
    ensures { OnOk result (Appends
        (front_cells surveyed.now hull.now before.now (row_of surveyed.now row)) text.old text.new) }
{
    let here = row_of(surveyed.study(), row);
    push_own_cells(text, before, &here)?;
    push_rate_cell(text, heap, hull, &here)?;
    push_setting_cells(text, before, &here, settings)?;
    push_numbers(text, own_totals(surveyed, row.row))
}

#[tactic(auto, unfolding(crate::specs::Front::front_row))]
fn push_front_row<A: Allocator, B: Allocator>(
    text: &mut String<A>,
    heap: Global,
    surveyed: &Surveyed<'_, B>,
    settings: &[Setting],
    hull: &[FrontRow],
    before: &Option<ShownRow>,
    row: FrontRow,
) -> Result<(), AllocError>
    requires row { row.row < length surveyed.now.rows }
    requires settings { settings.now ≡ settings_of surveyed.now }
    ensures { OnOk result (Appends
        (front_row surveyed.now hull.now before.now (row_of surveyed.now row)) text.old text.new) }
{
    push_row_start(text, hull, row.row)?;
    push_front_cells(text, heap, surveyed, settings, hull, before, row)?;
    text.push_str("</tr>\n")
}

fn push_front_rows<A: Allocator, B: Allocator>(
    text: &mut String<A>,
    heap: Global,
    surveyed: &Surveyed<'_, B>,
    settings: &[Setting],
    hull: &[FrontRow],
    shown: &[FrontRow],
) -> Result<(), AllocError>
    requires within { All (λ r. r.row < length surveyed.now.rows) shown.now }
    requires settings { settings.now ≡ settings_of surveyed.now }
    ensures { OnOk result (Appends (front_rows surveyed.now hull.now None shown.now) text.old text.new) }
{
    let mut before = None;
    for row in shown {
        push_front_row(text, heap, surveyed, settings, hull, &before, *row)?;
        before = Some(row_of(surveyed.study(), *row));
    }
    Ok(())
}

/// Adds the table of the rows that are shown. `hull` are the rows of the front that are on its hull.
#[tactic(auto, unfolding(crate::specs::Front::front_table))]
pub fn push_front_table<A: Allocator, B: Allocator>(
    text: &mut String<A>,
    heap: Global,
    surveyed: &Surveyed<'_, B>,
    hull: &[FrontRow],
    shown: &[FrontRow],
) -> Result<(), AllocError>
    requires { All (λ r. r.row < length surveyed.now.rows) shown.now }
    ensures { OnOk result (Appends (front_table surveyed.now hull.now shown.now) text.old text.new) }
{
    let settings = settings_of(heap, surveyed.study())?;
    let caption = "The front, and what each row has more than the one above";
    push_table_start(text, " class=\"a\" id=\"front\"", caption)?;
    push_front_heads(text, surveyed.study(), settings.as_slice())?;
    push_head_end(text)?;
    push_front_rows(text, heap, surveyed, settings.as_slice(), hull, shown)?;
    push_table_end(text)
}
