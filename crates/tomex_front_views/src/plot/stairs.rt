//! The staircase above which all rows lie.

ghost use Rattle.std.specs.Prelude.{codes, OnOk};
ghost use Rattle.tomex_layout.specs.Growth.{Appends};
ghost use Rattle.tomex_front_views.specs.Plot.{move_to, staircase, steps_down};

use crate::plot::axes::{Axes, Point};
use std::alloc::{AllocError, Allocator};
use std::fmt::Write;
use tomex_pareto::FrontRow;

/// Adds a move to the right, unless it has no length.
#[tactic(auto, unfolding(crate::specs::Plot::move_to))]
fn push_right<A: Allocator>(text: &mut String<A>, from: u64, to: u64) -> Result<(), AllocError>
    ensures { OnOk result (Appends (move_to (codes "H") from to) text.old text.new) }
{
    if from != to {
        write!(text, "H{to}")?;
    }
    Ok(())
}

/// Adds a move up or down, unless it has no length.
#[tactic(auto, unfolding(crate::specs::Plot::move_to))]
fn push_down<A: Allocator>(text: &mut String<A>, from: u64, to: u64) -> Result<(), AllocError>
    ensures { OnOk result (Appends (move_to (codes "V") from to) text.old text.new) }
{
    if from != to {
        write!(text, "V{to}")?;
    }
    Ok(())
}

/// Adds the moves from a point to each row: right, then down.
fn push_steps<A: Allocator>(
    text: &mut String<A>,
    axes: &Axes,
    from: Point,
    rows: &[FrontRow],
) -> Result<(), AllocError>
    ensures { OnOk result (Appends (steps_down axes.now from rows.now) text.old text.new) }
{
    let mut at = from;
    for row in rows {
        let next = axes.point_of(*row);
        push_right(text, at.x, next.x)?;
        push_down(text, at.y, next.y)?;
        at = next;
    }
    Ok(())
}

/// Adds the path from the frame's top to the first row, down to the last, and right to the frame.
#[tactic(auto, unfolding(crate::specs::Plot::staircase))]
pub fn push_staircase<A: Allocator>(
    text: &mut String<A>,
    axes: &Axes,
    rows: &[FrontRow],
) -> Result<(), AllocError>
    ensures { OnOk result (Appends (staircase axes.now rows.now) text.old text.new) }
{
    let Some(first) = rows.first() else {
        return Ok(());
    };
    let top = Point {
        x: axes.x_of(first.cost),
        y: 56,
    };
    let left = top.x;
    write!(text, "M{left} 56")?;
    push_steps(text, axes, top, rows)?;
    text.push_str("H696")?;
    Ok(())
}
