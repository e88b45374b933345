//! Which rows of the front are steps worth taking.

ghost use Rattle.std.specs.Prelude.{◌++◌, codes, OnOk};
ghost use Rattle.std.specs.List.{flat_map};
ghost use Rattle.tomex_layout.specs.Growth.{Appends};
ghost use Rattle.tomex_page_tables.specs.Front.{row_text};
ghost use Rattle.tomex_page_tables.specs.Pieces.{some, with_commas};
ghost use Rattle.tomex_page_tables.specs.Steps.{steps_sentence};

use crate::front::push_row_text;
use crate::tables::{MOST_LINES, first_lines};
use std::alloc::{AllocError, Allocator};
use std::fmt::Write;
use tomex_pareto::FrontRow;

/// Adds the numbers of rows, each after a comma.
fn push_others<A: Allocator>(
    text: &mut String<A>,
    shown: &[FrontRow],
    rows: &[FrontRow],
) -> Result<(), AllocError>
    ensures { OnOk result (
        Appends (flat_map (λ r. codes ", " ++ row_text shown.now r.row) rows.now) text.old text.new) }
{
    for row in rows {
        text.push_str(", ")?;
        push_row_text(text, shown, row.row)?;
    }
    Ok(())
}

/// Adds the numbers of rows, with commas between them.
fn push_joined<A: Allocator>(
    text: &mut String<A>,
    shown: &[FrontRow],
    rows: &[FrontRow],
) -> Result<(), AllocError>
    ensures { OnOk result (Appends (with_commas (λ r. row_text shown.now r.row) rows.now) text.old text.new) }
{
    let [first, rest @ ..] = rows else {
        return Ok(());
    };
    push_row_text(text, shown, first.row)?;
    push_others(text, shown, rest)
}

/// Adds the numbers of the first rows, with a sign if there are more.
#[tactic(auto, unfolding(crate::specs::Pieces::some))]
fn push_some_rows<A: Allocator>(
    text: &mut String<A>,
    shown: &[FrontRow],
    rows: &[FrontRow],
) -> Result<(), AllocError>
    ensures { OnOk result (Appends (some (λ r. row_text shown.now r.row) rows.now) text.old text.new) }
{
    push_joined(text, shown, first_lines(rows))?;
    if rows.len() > MOST_LINES {
        text.push_str(" ..")?;
    }
    Ok(())
}

/// Adds a sentence on the rows on the hull of a front of `front` rows: how many they are, and the numbers of the first
/// 64, each a link if the row is among those that are `shown`.
#[tactic(auto, unfolding(crate::specs::Steps::steps_sentence))]
pub fn push_steps_sentence<A: Allocator>(
    text: &mut String<A>,
    hull: &[FrontRow],
    front: usize,
    shown: &[FrontRow],
) -> Result<(), AllocError>
    ensures { OnOk result (Appends (steps_sentence hull.now front shown.now) text.old text.new) }
{
    let count = hull.len();
    write!(text, "<p>{count} of these {front} are steps worth taking: ")?;
    push_some_rows(text, shown, hull)?;
    text.push_str(".</p>")
}
