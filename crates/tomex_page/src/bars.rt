//! Bars of a run's cycles.

ghost use Rattle.std.specs.Prelude.{◌≡◌, OnOk};
ghost use Rattle.tomex_layout.specs.Growth.{Appends};
ghost use Rattle.tomex_page.specs.Bars.{bar, bar_part, cycle_cells, drain_cells, share, stretch};

use std::alloc::{AllocError, Allocator};
use std::fmt::Write;
use tomex_html::{push_empty, push_number};

/// A number of cycles in percent of all, at most 100.
fn share(cycles: u64, total: u64) -> u64
    ensures { result ≡ share cycles total }
{
    let percent = (u128::from(cycles) * 100)
        .checked_div(u128::from(total))
        .unwrap_or(0);
    percent.min(100) as u64
}

/// Adds an element of this percentage of its cell's width.
#[tactic(auto, unfolding(crate::specs::Bars::stretch))]
fn push_stretch<A: Allocator>(
    text: &mut String<A>,
    element: &str,
    percent: u64,
) -> Result<(), AllocError>
    ensures { OnOk result (Appends (stretch element.now percent) text.old text.new) }
{
    write!(text, "<{element} style=\"width:{percent}%\"></{element}>")
}

/// Adds a part of a bar, as long as the cycles' share of all.
#[tactic(auto, unfolding(crate::specs::Bars::bar_part))]
fn push_bar_part<A: Allocator>(
    text: &mut String<A>,
    element: &str,
    cycles: u64,
    total: u64,
) -> Result<(), AllocError>
    ensures { OnOk result (Appends (bar_part element.now cycles total) text.old text.new) }
{
    if cycles == 0 {
        return Ok(());
    }
    push_stretch(text, element, share(cycles, total))
}

/// Adds a cell with a bar of some cycles, and over it those of them that lie on the path.
#[tactic(auto, unfolding(crate::specs::Bars::bar, tomex_html::specs::Html::td))]
fn push_bar<A: Allocator>(
    text: &mut String<A>,
    cycles: u64,
    on_path: u64,
    total: u64,
) -> Result<(), AllocError>
    ensures { OnOk result (Appends (bar cycles on_path total) text.old text.new) }
{
    text.push_str("<td>")?;
    push_bar_part(text, "i", cycles, total)?;
    push_bar_part(text, "b", on_path, total)?;
    text.push_str("</td>")
}

/// Adds cells with a number of cycles, those of them that lie on the path, and their bar.
#[tactic(auto, unfolding(crate::specs::Bars::cycle_cells))]
pub fn push_cycles<A: Allocator>(
    text: &mut String<A>,
    cycles: u64,
    on_path: u64,
    total: u64,
) -> Result<(), AllocError>
    ensures { OnOk result (Appends (cycle_cells cycles on_path total) text.old text.new) }
{
    push_number(text, cycles)?;
    push_number(text, on_path)?;
    push_bar(text, cycles, on_path, total)
}

/// Adds the cells of what has no count, for a number of cycles in which nothing waits, and their bar.
#[tactic(auto, unfolding(crate::specs::Bars::drain_cells))]
pub fn push_drained<A: Allocator>(
    text: &mut String<A>,
    cycles: u64,
    total: u64,
) -> Result<(), AllocError>
    ensures { OnOk result (Appends (drain_cells cycles total) text.old text.new) }
{
    push_empty(text)?;
    push_empty(text)?;
    push_number(text, cycles)?;
    push_empty(text)?;
    push_bar(text, cycles, 0, total)
}
