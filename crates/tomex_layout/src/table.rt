//! A table of columns.

ghost use Rattle.std.specs.Prelude.{◌≡◌, length, All, IfOk, OnOk};
ghost use Rattle.std.specs.List.{flat_map};
ghost use Rattle.tomex_layout.specs.Growth.{Appends};
ghost use Rattle.tomex_layout.specs.Table.{has_line, spaced_in, table_line, table_of};

use crate::column::{Column, Line};
use std::alloc::{AllocError, Allocator};

/// Adds the texts of these columns in a line, each after two spaces.
#[tactic(auto, unfolding(crate::specs::Table::spaced_in))]
fn push_spaced<A: Allocator>(
    text: &mut String<A>,
    columns: &[Column],
    line: Line,
) -> Result<(), AllocError>
    requires { All (has_line line) columns.now }
    ensures { OnOk result (Appends (flat_map (spaced_in line) columns.now) text.old text.new) }
{
    for column in columns {
        text.push_str("  ")?;
        column.push_line(text, line)?;
    }
    Ok(())
}

#[tactic(auto, unfolding(crate::specs::Table::table_line))]
fn push_line<A: Allocator>(
    text: &mut String<A>,
    columns: &[Column],
    line: Line,
) -> Result<(), AllocError>
    requires { All (has_line line) columns.now }
    ensures { OnOk result (Appends (table_line columns.now line) text.old text.new) }
{
    if let [first, rest @ ..] = columns {
        first.push_line(text, line)?;
        push_spaced(text, rest, line)?;
    }
    text.push_str("\n")
}

/// The table of columns with `count` entries each.
#[tactic(auto, unfolding(crate::specs::Table::table_of))]
pub fn table_of<A: Allocator>(
    alloc: A,
    count: usize,
    columns: &[Column],
) -> Result<Vec<u8, A>, AllocError>
    requires { All (λ c. length c.entries ≡ count) columns.now }
    ensures { IfOk result (λ text. text.items ≡ table_of count columns.now) }
{
    let mut text = String::new(alloc);
    push_line(&mut text, columns, Line::Names)?;
    for place in 0..count {
        push_line(&mut text, columns, Line::Entries(place))?;
    }
    Ok(text.into_bytes())
}
