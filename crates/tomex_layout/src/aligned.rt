//! Texts that are aligned, to the right or to the left.

ghost use Rattle.std.specs.Prelude.{codes, OnOk};
ghost use Rattle.std.specs.Fmt.{decimal};
ghost use Rattle.std.specs.List.{repeat};
ghost use Rattle.tomex_layout.specs.Aligned.{left_aligned, right_aligned};
ghost use Rattle.tomex_layout.specs.Growth.{Appends};

use std::alloc::{AllocError, Allocator};
use std::fmt::Write;

fn push_spaces<A: Allocator>(text: &mut String<A>, count: usize) -> Result<(), AllocError>
    ensures { OnOk result (Appends (repeat count (codes " ")) text.old text.new) }
{
    let mut left = count;
    while left > 0 {
        text.push_str(" ")?;
        left -= 1;
    }
    Ok(())
}

/// Adds a word, right-aligned.
pub fn push_aligned<A: Allocator>(
    text: &mut String<A>,
    width: usize,
    word: &str,
) -> Result<(), AllocError>
    ensures { OnOk result (Appends (right_aligned width word.now) text.old text.new) }
{
    push_spaces(text, width.saturating_sub(word.as_bytes().len()))?;
    text.push_str(word)
}

/// Adds a word, left-aligned.
pub fn push_left_aligned<A: Allocator>(
    text: &mut String<A>,
    width: usize,
    word: &str,
) -> Result<(), AllocError>
    ensures { OnOk result (Appends (left_aligned width word.now) text.old text.new) }
{
    text.push_str(word)?;
    push_spaces(text, width.saturating_sub(word.as_bytes().len()))
}

/// Adds a number, right-aligned.
pub fn push_aligned_number<A: Allocator>(
    text: &mut String<A>,
    scratch: &mut String,
    width: usize,
    number: u64,
) -> Result<(), AllocError>
    ensures { OnOk result (Appends (right_aligned width (decimal number)) text.old text.new) }
{
    scratch.clear();
    write!(scratch, "{number}")?;
    push_aligned(text, width, scratch.as_str())
}
