//! The lines and numbers of the axes.

ghost use Rattle.std.specs.Prelude.{◌≡◌, OnOk};
ghost use Rattle.tomex_layout.specs.Growth.{Appends};
ghost use Rattle.tomex_front_views.specs.Plot.{mark_at, marks_of, span_of};

use crate::plot::axes::{Axes, Span};
use crate::plot::ticks::step_of;
use std::alloc::{AllocError, Allocator};
use std::fmt::Write;

/// The marks at a value of an axis.
#[derive(Clone, Copy)]
pub enum Mark {
    CostLine,
    CyclesLine,
    CostNumber,
    CyclesNumber,
}

/// The span whose values have this mark.
fn span_of(axes: &Axes, mark: Mark) -> Span
    ensures { result ≡ span_of axes.now mark }
{
    match mark {
        Mark::CostLine | Mark::CostNumber => axes.costs,
        Mark::CyclesLine | Mark::CyclesNumber => axes.cycles,
    }
}

/// Adds a line across the picture at a value, or its number at the axis.
#[tactic(auto, unfolding(crate::specs::Plot::mark_at))]
fn push_mark_at<A: Allocator>(
    text: &mut String<A>,
    axes: &Axes,
    mark: Mark,
    value: u64,
) -> Result<(), AllocError>
    ensures { OnOk result (Appends (mark_at axes.now mark value) text.old text.new) }
{
    let (x, y) = (axes.x_of(value), axes.y_of(value));
    match mark {
        Mark::CostLine => write!(text, "<path d=\"M{x} 56V384\"/>\n"),
        Mark::CyclesLine => write!(text, "<path d=\"M112 {y}H696\"/>\n"),
        Mark::CostNumber => write!(text, "<text x=\"{x}\" y=\"402\">{value}</text>\n"),
        Mark::CyclesNumber => {
            let below = y + 4;
            write!(text, "<text x=\"104\" y=\"{below}\">{value}</text>\n")
        }
    }
}

/// Adds the marks at each tick.
#[tactic(auto, unfolding(crate::specs::Plot::marks_of))]
pub fn push_marks<A: Allocator>(
    text: &mut String<A>,
    axes: &Axes,
    mark: Mark,
) -> Result<(), AllocError>
    ensures { OnOk result (Appends (marks_of axes.now mark) text.old text.new) }
{
    let span = span_of(axes, mark);
    let step = step_of(span.greatest.saturating_sub(span.least));
    for k in span.least.div_ceil(step)..=span.greatest / step {
        push_mark_at(text, axes, mark, k * step)?;
    }
    Ok(())
}
