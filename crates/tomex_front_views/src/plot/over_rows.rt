//! The front over all rows of a study, as one picture in SVG.

ghost use Rattle.std.specs.Prelude.{◌≡◌, IfOk, OnOk};
ghost use Rattle.tomex_layout.specs.Growth.{Appends};
ghost use Rattle.tomex_front_views.specs.RowsPlot.{picture_over, rows_picture_of};

use crate::plot::axes::axes_of;
use crate::plot::dots::push_dots_line;
use crate::plot::{push_behind, push_front, stairs_of};
use std::alloc::{AllocError, Allocator, Global};
use tomex_pareto::FrontRow;
use tomex_study::Surveyed;

/// Adds the picture of a front, drawn over dots for all rows, `all` in number.
#[tactic(auto, unfolding(crate::specs::RowsPlot::picture_over))]
fn push_over<A: Allocator + Clone>(
    text: &mut String<A>,
    alloc: A,
    heap: Global,
    all: usize,
    rows: &[FrontRow],
    front: &[FrontRow],
) -> Result<(), AllocError>
    ensures { OnOk result (Appends (picture_over all rows.now front.now) text.old text.new) }
{
    let axes = axes_of(rows);
    let stairs = stairs_of(heap, &axes, front)?;
    push_behind(text, heap, &axes, stairs.as_str(), front.len(), all)?;
    push_dots_line(text, alloc, &axes, rows)?;
    push_front(text, heap, &axes, stairs.as_str(), front)
}

/// The front of a study as the picture that `front_picture` gives, drawn over faint dots for all rows. The axes span
/// all rows.
///
/// Small values are allocated in `heap`.
pub fn rows_picture<A: Allocator + Clone>(
    alloc: A,
    heap: Global,
    surveyed: &Surveyed<'_, A>,
) -> Result<Vec<u8, A>, AllocError>
    ensures { IfOk result (λ text. text.items ≡ rows_picture_of surveyed.now) }
{
    let (rows, front) = (surveyed.rows(), surveyed.front());
    let mut text = String::new(alloc.clone()?);
    push_over(&mut text, alloc, heap, rows.len(), rows, front)?;
    Ok(text.into_bytes())
}
