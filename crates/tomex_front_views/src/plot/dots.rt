//! All rows as dots: one path, whose strokes go down over dots one below another.

ghost use Rattle.std.specs.Prelude.{◌≡◌, ◌<◌, ◌+◌, ◌-◌, ◌*◌, ℕ, Bool, false, ◌&&◌, not, if◌then◌else◌};
ghost use Rattle.std.specs.Prelude.{drop, length, map, nat_eq, slice_index_or, OnOk, IfOk};
ghost use Rattle.std.specs.List.{prefix_len};
ghost use Rattle.tomex_layout.specs.Growth.{Appends};
ghost use Rattle.tomex_front_views.specs.Axes.{x_of, y_of};
ghost use Rattle.tomex_front_views.specs.Dots.{IsTable, all_y, column_text, dots, dots_line, stroke, stroke_at};
ghost use Rattle.tomex_front_views.specs.Dots.{width_of};

use crate::plot::axes::Axes;
use std::alloc::{AllocError, Allocator};
use std::fmt::Write;
use tomex_pareto::FrontRow;

/// Points from left to right, from 136 to 648.
const COLUMNS: usize = 513;

/// Points from top to bottom, from 80 to 360.
const LINES: usize = 281;

/// The place, in the table of points, of a row's point.
fn place_of(axes: &Axes, row: FrontRow) -> usize
    ensures is { result ≡ (x_of axes.now row.cost - 136) * 281 + (y_of axes.now row.cycles - 80) }
    ensures within { result < 513 * 281 }
{
    let at = axes.point_of(row);
    (at.x - 136) as usize * LINES + (at.y - 80) as usize
}

/// The table of points: true if a row has that point.
fn table_of<A: Allocator>(
    alloc: A,
    axes: &Axes,
    rows: &[FrontRow],
) -> Result<Vec<bool, A>, AllocError>
    ensures { IfOk result (λ v. IsTable axes.now rows.now v.items) }
{
    let mut marks = vec![in alloc; false; COLUMNS * LINES]?;
    for row in rows {
        let place = place_of(axes, *row);
        marks[place] = true;
    }
    Ok(marks)
}

/// True if a stroke begins at a line of a column: it has a dot, and the line above has none.
fn begins(column: &[bool], line: usize) -> bool
    requires { line < length column.now }
    ensures { result ≡ (slice_index_or column.now line false
        && not (if nat_eq line 0 then false else slice_index_or column.now (line - 1) false)) }
{
    column[line] && (line == 0 || !column[line - 1])
}

/// The number of dots that follow below a line's without a gap.
fn reach(column: &[bool], line: usize) -> usize
    requires { line < length column.now }
    ensures { result ≡ prefix_len (λ dot. dot) (drop (line + 1) column.now) }
{
    column[line + 1..].iter().take_while(|dot| **dot).count()
}

/// Adds a stroke from a point down.
#[tactic(auto, unfolding(crate::specs::Dots::stroke))]
fn push_stroke<A: Allocator>(
    text: &mut String<A>,
    x: usize,
    y: usize,
    far: usize,
) -> Result<(), AllocError>
    ensures { OnOk result (Appends (stroke x y far) text.old text.new) }
{
    write!(text, "M{x} {y}v{far}")
}

/// Adds the stroke that begins at a line of a column, if there is one.
fn push_stroke_at<A: Allocator>(
    text: &mut String<A>,
    x: usize,
    column: &[bool],
    line: usize,
) -> Result<(), AllocError>
    requires count { length column.now ≡ 281 }
    requires line { line < 281 }
    ensures { OnOk result ((dot : ℕ → Bool) → dot 79 ≡ false → column.now ≡ map dot all_y
        → Appends (stroke_at dot x (80 + line)) text.old text.new) }
{
    if begins(column, line) {
        return push_stroke(text, x, 80 + line, reach(column, line));
    }
    Ok(())
}

/// Adds the strokes of a column of points, from the top.
fn push_column<A: Allocator>(
    text: &mut String<A>,
    x: usize,
    column: &[bool],
) -> Result<(), AllocError>
    requires { length column.now ≡ 281 }
    ensures { OnOk result ((dot : ℕ → Bool) → dot 79 ≡ false → column.now ≡ map dot all_y
        → Appends (column_text dot x) text.old text.new) }
{
    for line in 0..LINES {
        push_stroke_at(text, x, column, line)?;
    }
    Ok(())
}

/// Adds the strokes of all columns, from the left.
fn push_dots<A: Allocator + Clone>(
    text: &mut String<A>,
    alloc: A,
    axes: &Axes,
    rows: &[FrontRow],
) -> Result<(), AllocError>
    ensures { OnOk result (Appends (dots axes.now rows.now) text.old text.new) }
{
    let table = table_of(alloc, axes, rows)?;
    let marks = table.as_slice();
    for column in 0..COLUMNS {
        let first = column * LINES;
        push_column(text, 136 + column, &marks[first..first + LINES])?;
    }
    Ok(())
}

/// The width of strokes; they are narrower if there are many rows.
fn width_of(rows: usize) -> usize
    ensures { result ≡ width_of rows }
{
    if rows <= 1024 { 3 } else { 2 }
}

/// Adds all rows as one faint path.
pub fn push_dots_line<A: Allocator + Clone>(
    text: &mut String<A>,
    alloc: A,
    axes: &Axes,
    rows: &[FrontRow],
) -> Result<(), AllocError>
    ensures { OnOk result (Appends (dots_line axes.now rows.now) text.old text.new) }
{
    text.push_str("<path d=\"")?;
    push_dots(text, alloc, axes, rows)?;
    let width = width_of(rows.len());
    text.push_str("\" fill=\"none\" stroke=\"#a9b8c9\" stroke-width=\"")?;
    write!(text, "{width}\" stroke-linecap=\"round\"/>\n")
}
