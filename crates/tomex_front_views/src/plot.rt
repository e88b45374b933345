//! The front as one picture in SVG.

ghost use Rattle.std.specs.Prelude.{◌≡◌, ◌++◌, length, OnOk, IfOk, string_bytes};
ghost use Rattle.tomex_layout.specs.Growth.{Appends};
ghost use Rattle.tomex_front_views.specs.Plot.{front_picture_of, lines_text, picture_of_rows, rows_text};
ghost use Rattle.tomex_front_views.specs.Plot.{scales_text, shade, sheet, size_text, staircase, title_of};
ghost use Rattle.tomex_pareto.specs.Hull.{hull_of};

pub mod axes;
pub mod dots;
pub mod linked;
pub mod marks;
pub mod over_rows;
pub mod points;
pub mod stairs;
pub mod ticks;

use axes::{Axes, axes_of};
use marks::{Mark, push_marks};
use points::{push_circles, push_numbers};
use stairs::push_staircase;
use std::alloc::{AllocError, Allocator, Global};
use std::fmt::Write;
use tomex_pareto::{FrontRow, hull};
use tomex_study::Surveyed;

fn push<A: Allocator>(text: &mut String<A>, piece: &str) -> Result<(), AllocError>
    ensures { OnOk result (Appends piece.now text.old text.new) }
{
    text.push_str(piece)
}

/// Adds the picture's size, and the style of its texts.
fn push_size<A: Allocator>(text: &mut String<A>) -> Result<(), AllocError>
    ensures { OnOk result (Appends size_text text.old text.new) }
{
    push(
        text,
        "<svg xmlns=\"http://www.w3.org/2000/svg\" width=\"720\" height=\"440\"",
    )?;
    push(text, " viewBox=\"0 0 720 440\"")?;
    push(
        text,
        " font-family=\"sans-serif\" font-size=\"12\" fill=\"#333333\">\n",
    )?;
    Ok(())
}

/// Adds a white sheet with a title.
fn push_sheet<A: Allocator>(text: &mut String<A>, title: &str) -> Result<(), AllocError>
    ensures { OnOk result (Appends (sheet title.now) text.old text.new) }
{
    push(text, "<title>")?;
    push(text, title)?;
    push(text, "</title>\n")?;
    push(
        text,
        "<rect width=\"720\" height=\"440\" fill=\"#ffffff\"/>\n",
    )?;
    push(text, "<text x=\"112\" y=\"24\" font-size=\"15\">")?;
    push(text, title)?;
    push(text, "</text>\n")?;
    Ok(())
}

/// Adds the shaded area in which rows are dominated.
#[tactic(auto, unfolding(crate::specs::Plot::shade))]
fn push_shade<A: Allocator>(text: &mut String<A>, stairs: &str) -> Result<(), AllocError>
    ensures { OnOk result (Appends (shade stairs.now) text.old text.new) }
{
    write!(text, "<path d=\"{stairs}V56Z\" fill=\"#edf3fa\"/>\n")
}

/// Adds light lines at the ticks, and a frame.
fn push_lines<A: Allocator>(text: &mut String<A>, axes: &Axes) -> Result<(), AllocError>
    ensures { OnOk result (Appends (lines_text axes.now) text.old text.new) }
{
    push(text, "<g stroke=\"#dddddd\">\n")?;
    push_marks(text, axes, Mark::CostLine)?;
    push_marks(text, axes, Mark::CyclesLine)?;
    push(text, "</g>\n")?;
    push(
        text,
        "<rect x=\"112\" y=\"56\" width=\"584\" height=\"328\" fill=\"none\" stroke=\"#999999\"/>\n",
    )?;
    Ok(())
}

/// Adds the numbers at the ticks, and the names of the axes.
fn push_scales<A: Allocator>(text: &mut String<A>, axes: &Axes) -> Result<(), AllocError>
    ensures { OnOk result (Appends (scales_text axes.now) text.old text.new) }
{
    push(text, "<g text-anchor=\"middle\">\n")?;
    push_marks(text, axes, Mark::CostNumber)?;
    push(
        text,
        "<text x=\"404\" y=\"426\" font-size=\"14\">cost</text>\n</g>\n",
    )?;
    push(text, "<g text-anchor=\"end\">\n")?;
    push_marks(text, axes, Mark::CyclesNumber)?;
    push(
        text,
        "<text x=\"104\" y=\"48\" font-size=\"14\">cycles</text>\n</g>\n",
    )?;
    Ok(())
}

/// Adds the staircase as a line, the points, and their rows' numbers.
#[tactic(auto, unfolding(crate::specs::Plot::rows_text))]
fn push_rows<A: Allocator>(
    text: &mut String<A>,
    heap: Global,
    axes: &Axes,
    stairs: &str,
    hull: &[FrontRow],
    rows: &[FrontRow],
) -> Result<(), AllocError>
    ensures { OnOk result (Appends (rows_text axes.now stairs.now hull.now rows.now) text.old text.new) }
{
    write!(
        text,
        "<path d=\"{stairs}\" fill=\"none\" stroke=\"#1f5fa8\" stroke-width=\"2\"/>\n"
    )?;
    text.push_str("<g fill=\"#1f5fa8\">\n")?;
    push_circles(text, axes, hull, rows)?;
    text.push_str("</g>\n<g font-size=\"11\">\n")?;
    push_numbers(text, heap, axes, rows)?;
    text.push_str("</g>\n</svg>\n")?;
    Ok(())
}

/// Adds the picture's size, and a sheet with the title of a front of this number of rows, out of `all`.
#[tactic(auto, unfolding(crate::specs::Plot::title_of))]
fn push_titled<A: Allocator>(
    text: &mut String<A>,
    heap: Global,
    rows: usize,
    all: usize,
) -> Result<(), AllocError>
    ensures { OnOk result (Appends (size_text ++ sheet (title_of rows all)) text.old text.new) }
{
    let title = format!(in heap; "front: {rows} of {all} rows")?;
    push_size(text)?;
    push_sheet(text, title.as_str())
}

/// Adds the shaded area, and the scales.
fn push_ground<A: Allocator>(
    text: &mut String<A>,
    axes: &Axes,
    stairs: &str,
) -> Result<(), AllocError>
    ensures { OnOk result (Appends
        (shade stairs.now ++ (lines_text axes.now ++ scales_text axes.now)) text.old text.new) }
{
    push_shade(text, stairs)?;
    push_lines(text, axes)?;
    push_scales(text, axes)
}

/// Adds what is behind the rows of a front, of this number of rows out of `all`.
fn push_behind<A: Allocator>(
    text: &mut String<A>,
    heap: Global,
    axes: &Axes,
    stairs: &str,
    rows: usize,
    all: usize,
) -> Result<(), AllocError>
    ensures { OnOk result (Appends (size_text ++ (sheet (title_of rows all) ++ (shade stairs.now
        ++ (lines_text axes.now ++ scales_text axes.now)))) text.old text.new) }
{
    push_titled(text, heap, rows, all)?;
    push_ground(text, axes, stairs)
}

/// The staircase through the rows of a front.
fn stairs_of(heap: Global, axes: &Axes, rows: &[FrontRow]) -> Result<String, AllocError>
    ensures { IfOk result (λ stairs. string_bytes stairs ≡ staircase axes.now rows.now) }
{
    let mut stairs = String::new(heap);
    push_staircase(&mut stairs, axes, rows)?;
    Ok(stairs)
}

/// Adds the rows of a front as `push_rows` does, filled if they are on its hull.
fn push_front<A: Allocator>(
    text: &mut String<A>,
    heap: Global,
    axes: &Axes,
    stairs: &str,
    rows: &[FrontRow],
) -> Result<(), AllocError>
    ensures { OnOk result (Appends (rows_text axes.now stairs.now (hull_of rows.now) rows.now) text.old text.new) }
{
    let hull = hull(heap, rows)?;
    push_rows(text, heap, axes, stairs, hull.as_slice(), rows)
}

/// Adds the picture of a front, out of `all` rows.
#[tactic(auto, unfolding(crate::specs::Plot::picture_of_rows))]
fn push_picture<A: Allocator>(
    text: &mut String<A>,
    heap: Global,
    all: usize,
    rows: &[FrontRow],
) -> Result<(), AllocError>
    ensures { OnOk result (Appends (picture_of_rows all rows.now) text.old text.new) }
{
    let axes = axes_of(rows);
    let stairs = stairs_of(heap, &axes, rows)?;
    push_behind(text, heap, &axes, stairs.as_str(), rows.len(), all)?;
    push_front(text, heap, &axes, stairs.as_str(), rows)
}

/// The front of a study as a picture in SVG, 720 by 440 points: cost from left to right, cycles
/// from bottom to top, a circle for each row, filled if the row is on the hull, and a staircase
/// through them. It uses no external script, style sheet or font.
///
/// Small values are allocated in `heap`.
pub fn front_picture<A: Allocator>(
    alloc: A,
    heap: Global,
    surveyed: &Surveyed<'_, A>,
) -> Result<Vec<u8, A>, AllocError>
    ensures { IfOk result (λ text. text.items ≡ front_picture_of surveyed.now) }
{
    let mut text = String::new(alloc);
    push_picture(&mut text, heap, surveyed.rows().len(), surveyed.front())?;
    Ok(text.into_bytes())
}
