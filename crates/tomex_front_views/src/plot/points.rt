//! The points of the rows, and their numbers.

ghost use Rattle.std.specs.Prelude.{◌≡◌, ◌≤◌, length, None, IfOk, OnOk};
ghost use Rattle.std.specs.List.{flat_map};
ghost use Rattle.tomex_layout.specs.Growth.{Appends};
ghost use Rattle.tomex_front_views.specs.Plot.{circle, circle_at, circle_line, fill_of, has_room, named_point};
ghost use Rattle.tomex_front_views.specs.Plot.{number_at, numbers_of, radius_of, row_title};

use crate::plot::axes::{Axes, Point};
use std::alloc::{AllocError, Allocator, Global};
use std::fmt::Write;
use tomex_pareto::{FrontRow, is_on};

/// A point with its row's number beside it.
#[derive(Clone, Copy)]
pub struct Named {
    pub at: Point,
    /// The number of digits of the row's number.
    pub digits: usize,
}

/// How a point is filled: it is hollow if its row isn't on the hull.
fn fill_of(on_hull: bool) -> &'static str
    ensures { result.now ≡ fill_of on_hull }
{
    if on_hull {
        ""
    } else {
        " fill=\"#ffffff\" stroke=\"#1f5fa8\" stroke-width=\"1.5\""
    }
}

#[tactic(auto, unfolding(crate::specs::Plot::circle_at))]
fn push_circle_at<A: Allocator>(
    text: &mut String<A>,
    at: Point,
    radius: u64,
    on_hull: bool,
) -> Result<(), AllocError>
    ensures { OnOk result (Appends (circle_at at radius on_hull) text.old text.new) }
{
    let (x, y, fill) = (at.x, at.y, fill_of(on_hull));
    write!(text, "<circle cx=\"{x}\" cy=\"{y}\" r=\"{radius}\"{fill}>")
}

/// Adds a circle's tooltip.
#[tactic(auto, unfolding(crate::specs::Plot::row_title))]
fn push_row_title<A: Allocator>(text: &mut String<A>, row: FrontRow) -> Result<(), AllocError>
    ensures { OnOk result (Appends (row_title row) text.old text.new) }
{
    let (number, cost, cycles) = (row.row, row.cost, row.cycles);
    write!(
        text,
        "<title>row {number}: cost {cost}, cycles {cycles}</title></circle>"
    )
}

/// Adds a row's point, with a tooltip.
#[tactic(auto, unfolding(crate::specs::Plot::circle))]
pub fn push_circle<A: Allocator>(
    text: &mut String<A>,
    axes: &Axes,
    radius: u64,
    hull: &[FrontRow],
    row: FrontRow,
) -> Result<(), AllocError>
    ensures { OnOk result (Appends (circle axes.now radius hull.now row) text.old text.new) }
{
    push_circle_at(text, axes.point_of(row), radius, is_on(hull, row.row))?;
    push_row_title(text, row)
}

/// Adds a line with a row's point.
#[tactic(auto, unfolding(crate::specs::Plot::circle_line))]
fn push_circle_line<A: Allocator>(
    text: &mut String<A>,
    axes: &Axes,
    radius: u64,
    hull: &[FrontRow],
    row: FrontRow,
) -> Result<(), AllocError>
    ensures { OnOk result (Appends (circle_line axes.now radius hull.now row) text.old text.new) }
{
    push_circle(text, axes, radius, hull, row)?;
    text.push_str("\n")
}

/// The radius of rows' points, in points of the picture; it is smaller if there are many rows.
pub fn radius_of(rows: usize) -> u64
    ensures { result ≡ radius_of rows }
{
    if rows <= 64 { 4 } else { 2 }
}

/// Adds the rows' points, each on a line; `hull` are those on the hull.
pub fn push_circles<A: Allocator>(
    text: &mut String<A>,
    axes: &Axes,
    hull: &[FrontRow],
    rows: &[FrontRow],
) -> Result<(), AllocError>
    ensures { OnOk result (Appends
        (flat_map (circle_line axes.now (radius_of (length rows.now)) hull.now) rows.now) text.old text.new) }
{
    let radius = radius_of(rows.len());
    for row in rows {
        push_circle_line(text, axes, radius, hull, *row)?;
    }
    Ok(())
}

/// True if a number at this point would not overlap the last one.
fn has_room(last: Option<Named>, at: Point) -> bool
    ensures { result ≡ has_room last at }
{
    match last {
        Some(last) => {
            let (x, y) = (u128::from(last.at.x), u128::from(last.at.y));
            let right = x + 4 + 7 * last.digits as u128;
            right <= u128::from(at.x) || y + 12 <= u128::from(at.y)
        }
        None => true,
    }
}

/// Adds a row's number beside its point.
#[tactic(auto, unfolding(crate::specs::Plot::number_at))]
fn push_number<A: Allocator>(text: &mut String<A>, at: Point, row: usize) -> Result<(), AllocError>
    requires { at.x ≤ 648 }
    ensures { OnOk result (Appends (number_at at row) text.old text.new) }
{
    let (x, y) = (at.x + 6, at.y.saturating_sub(6));
    write!(text, "<text x=\"{x}\" y=\"{y}\">{row}</text>\n")
}

/// A point with its row's number beside it.
fn named_point(heap: Global, at: Point, row: usize) -> Result<Named, AllocError>
    ensures { IfOk result (λ n. n ≡ named_point at row) }
{
    let number = format!(in heap; "{row}")?;
    Ok(Named {
        at,
        digits: number.as_bytes().len(),
    })
}

/// Adds the numbers of the rows that have room for one.
pub fn push_numbers<A: Allocator>(
    text: &mut String<A>,
    heap: Global,
    axes: &Axes,
    rows: &[FrontRow],
) -> Result<(), AllocError>
    ensures { OnOk result (Appends (numbers_of axes.now None rows.now) text.old text.new) }
{
    let mut last = None;
    for row in rows {
        let at = axes.point_of(*row);
        if has_room(last, at) {
            push_number(text, at, row.row)?;
            last = Some(named_point(heap, at, row.row)?);
        }
    }
    Ok(())
}
