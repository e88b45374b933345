//! The most that is shown in a table.

ghost use Rattle.std.specs.Prelude.{◌≡◌, take, OnOk};
ghost use Rattle.tomex_layout.specs.Growth.{Appends};
ghost use Rattle.tomex_page_tables.specs.Pieces.{more, most_lines, rest_text};

use std::alloc::{AllocError, Allocator};
use std::fmt::Write;

/// The most lines of a table, or entries of a list, that are shown.
pub const MOST_LINES: usize = 64;

/// The first lines, at most `count`.
fn first_of<T>(lines: &[T], count: usize) -> &[T]
    ensures { result.now ≡ take count lines.now }
{
    let end = count.min(lines.len());
    &lines[..end]
}

/// The first of some lines, as many as are shown.
pub fn first_lines<T>(lines: &[T]) -> &[T]
    ensures { result.now ≡ take most_lines lines.now }
{
    first_of(lines, MOST_LINES)
}

/// Adds how many lines aren't shown, and the command that prints them.
#[tactic(auto, unfolding(crate::specs::Pieces::rest_text))]
fn push_rest<A: Allocator>(
    text: &mut String<A>,
    command: &str,
    rest: usize,
) -> Result<(), AllocError>
    ensures { OnOk result (Appends (rest_text command.now rest) text.old text.new) }
{
    write!(
        text,
        "<p>{rest} more: <code>tomex {command}</code> has them all.</p>\n"
    )
}

/// Adds the number of lines that aren't shown, if any, and the command that prints them.
#[tactic(auto, unfolding(crate::specs::Pieces::more))]
pub fn push_more<A: Allocator>(
    text: &mut String<A>,
    command: &str,
    lines: usize,
) -> Result<(), AllocError>
    ensures { OnOk result (Appends (more command.now lines) text.old text.new) }
{
    if lines <= MOST_LINES {
        Ok(())
    } else {
        push_rest(text, command, lines - MOST_LINES)
    }
}
