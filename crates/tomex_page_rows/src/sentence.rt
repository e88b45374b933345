//! How far the fastest row is from the floors.

ghost use Rattle.std.specs.Prelude.{◌≡◌, OnOk};
ghost use Rattle.tomex_layout.specs.Growth.{Appends};
ghost use Rattle.tomex_page_rows.specs.Sentence.{floor_sentence};

use std::alloc::{AllocError, Allocator};
use std::fmt::Write;
use tomex_choices_table::push_floor;
use tomex_study::Floors;

/// Adds how far the fastest row is from the floors: that of the study's widths, and that of any width.
#[tactic(auto, unfolding(crate::specs::Sentence::floor_sentence))]
pub fn push_floor_sentence<A: Allocator>(
    text: &mut String<A>,
    floors: Floors,
) -> Result<(), AllocError>
    ensures { OnOk result (Appends (floor_sentence floors) text.old text.new) }
{
    let Floors {
        fastest,
        own,
        any_width,
    } = floors;
    write!(text, "<p>The fastest row takes {fastest} cycles. ")?;
    text.push_str("No machine with these latencies and widths takes fewer than ")?;
    push_floor(text, fastest, own)?;
    text.push_str(", and none with these latencies and any width fewer than ")?;
    push_floor(text, fastest, any_width)?;
    write!(text, ".</p>\n")
}
