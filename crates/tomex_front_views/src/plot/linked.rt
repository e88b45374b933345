//! The front over all rows of a study, as a picture in a page: the circles of some rows are links.

ghost use Rattle.std.specs.Prelude.{◌≡◌, length, OnOk};
ghost use Rattle.std.specs.List.{flat_map};
ghost use Rattle.tomex_layout.specs.Growth.{Appends};
ghost use Rattle.tomex_front_views.specs.LinkedPlot.{link_start, link_to, linked_circle, linked_line};
ghost use Rattle.tomex_front_views.specs.LinkedPlot.{linked_over, linked_picture_of, linked_rows};
ghost use Rattle.tomex_front_views.specs.Plot.{circle, radius_of};

use crate::plot::axes::{Axes, axes_of};
use crate::plot::dots::push_dots_line;
use crate::plot::points::{push_circle, push_numbers, radius_of};
use crate::plot::{push_behind, stairs_of};
use std::alloc::{AllocError, Allocator, Global};
use std::fmt::Write;
use tomex_pareto::{FrontRow, is_on};
use tomex_study::Surveyed;

/// Adds the start of a link to a row's view.
#[tactic(auto, unfolding(crate::specs::LinkedPlot::link_start))]
pub fn push_link_start<A: Allocator>(text: &mut String<A>, row: usize) -> Result<(), AllocError>
    ensures { OnOk result (Appends (link_start row) text.old text.new) }
{
    write!(text, "<a href=\"#r{row}\">")
}

/// Adds a row's point as a link.
#[tactic(auto, unfolding(crate::specs::LinkedPlot::link_to))]
fn push_link<A: Allocator>(
    text: &mut String<A>,
    axes: &Axes,
    radius: u64,
    hull: &[FrontRow],
    row: FrontRow,
) -> Result<(), AllocError>
    ensures { OnOk result (Appends (link_to row.row (circle axes.now radius hull.now row)) text.old text.new) }
{
    push_link_start(text, row.row)?;
    push_circle(text, axes, radius, hull, row)?;
    text.push_str("</a>")
}

/// Adds a row's point, which is a link if the row is shown.
#[tactic(auto, unfolding(crate::specs::LinkedPlot::linked_circle))]
fn push_linked_circle<A: Allocator>(
    text: &mut String<A>,
    axes: &Axes,
    radius: u64,
    hull: &[FrontRow],
    shown: &[FrontRow],
    row: FrontRow,
) -> Result<(), AllocError>
    ensures { OnOk result (Appends (linked_circle axes.now radius hull.now shown.now row) text.old text.new) }
{
    if is_on(shown, row.row) {
        push_link(text, axes, radius, hull, row)
    } else {
        push_circle(text, axes, radius, hull, row)
    }
}

/// Adds a line with a row's point, which is a link if the row is shown.
#[tactic(auto, unfolding(crate::specs::LinkedPlot::linked_line))]
fn push_linked_line<A: Allocator>(
    text: &mut String<A>,
    axes: &Axes,
    radius: u64,
    hull: &[FrontRow],
    shown: &[FrontRow],
    row: FrontRow,
) -> Result<(), AllocError>
    ensures { OnOk result (Appends (linked_line axes.now radius hull.now shown.now row) text.old text.new) }
{
    push_linked_circle(text, axes, radius, hull, shown, row)?;
    text.push_str("\n")
}

/// Adds the rows' points, each on a line.
fn push_linked_lines<A: Allocator>(
    text: &mut String<A>,
    axes: &Axes,
    hull: &[FrontRow],
    shown: &[FrontRow],
    front: &[FrontRow],
) -> Result<(), AllocError>
    ensures { OnOk result (Appends (flat_map
        (linked_line axes.now (radius_of (length front.now)) hull.now shown.now) front.now) text.old text.new) }
{
    let radius = radius_of(front.len());
    for row in front {
        push_linked_line(text, axes, radius, hull, shown, *row)?;
    }
    Ok(())
}

/// Adds the staircase as a line, the points, and their rows' numbers.
#[tactic(auto, unfolding(crate::specs::LinkedPlot::linked_rows))]
fn push_linked_rows<A: Allocator>(
    text: &mut String<A>,
    heap: Global,
    axes: &Axes,
    stairs: &str,
    hull: &[FrontRow],
    shown: &[FrontRow],
    front: &[FrontRow],
) -> Result<(), AllocError>
    ensures { OnOk result (Appends (linked_rows axes.now stairs.now hull.now shown.now front.now) text.old text.new) }
{
    write!(
        text,
        "<path d=\"{stairs}\" fill=\"none\" stroke=\"#1f5fa8\" stroke-width=\"2\"/>\n"
    )?;
    text.push_str("<g fill=\"#1f5fa8\">\n")?;
    push_linked_lines(text, axes, hull, shown, front)?;
    text.push_str("</g>\n<g font-size=\"11\">\n")?;
    push_numbers(text, heap, axes, front)?;
    text.push_str("</g>\n</svg>\n")
}

/// Adds the picture of a front, drawn over dots for all rows, `all` in number.
#[tactic(auto, unfolding(crate::specs::LinkedPlot::linked_over))]
fn push_linked_over<A: Allocator + Clone>(
    text: &mut String<A>,
    alloc: A,
    heap: Global,
    all: usize,
    rows: &[FrontRow],
    front: &[FrontRow],
    hull: &[FrontRow],
    shown: &[FrontRow],
) -> Result<(), AllocError>
    ensures { OnOk result (Appends (linked_over all rows.now front.now hull.now shown.now) text.old text.new) }
{
    let axes = axes_of(rows);
    let stairs = stairs_of(heap, &axes, front)?;
    push_behind(text, heap, &axes, stairs.as_str(), front.len(), all)?;
    push_dots_line(text, alloc, &axes, rows)?;
    push_linked_rows(text, heap, &axes, stairs.as_str(), hull, shown, front)
}

/// Adds the picture that `rows_picture` gives, except that the circle of each row that is shown is a link to the row's
/// view in the page. `hull` are the rows of the front that are on its hull.
///
/// Small values are allocated in `heap`.
pub fn push_linked_picture<A: Allocator + Clone>(
    text: &mut String<A>,
    alloc: A,
    heap: Global,
    surveyed: &Surveyed<'_, A>,
    hull: &[FrontRow],
    shown: &[FrontRow],
) -> Result<(), AllocError>
    ensures { OnOk result (Appends (linked_picture_of surveyed.now hull.now shown.now) text.old text.new) }
{
    let (rows, front) = (surveyed.rows(), surveyed.front());
    push_linked_over(text, alloc, heap, rows.len(), rows, front, hull, shown)
}
