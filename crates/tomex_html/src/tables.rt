//! Cells and rows of tables.

ghost use Rattle.std.specs.Prelude.{◌≡◌, [], OnOk};
ghost use Rattle.std.specs.List.{flat_map};
ghost use Rattle.tomex_layout.specs.Growth.{Appends};
ghost use Rattle.tomex_html.specs.Html.{cell_start, changed_cell, is_new, table_end, td};
ghost use Rattle.tomex_html.specs.Tables.{number_cell, row_start};

use std::alloc::{AllocError, Allocator};
use std::fmt::Write;

/// The start of a cell, which is marked if its content is new.
pub fn cell_start(new: bool) -> &'static str
    ensures { result.now ≡ cell_start new }
{
    if new { "<td class=\"n\">" } else { "<td>" }
}

/// True if the content has changed, and isn't empty now.
fn is_new(was: &str, now: &str) -> bool
    ensures { result ≡ is_new was.now now.now }
{
    was != now && !now.is_empty()
}

/// Adds a cell, which is marked if its content has changed and isn't empty.
pub fn push_changed_cell<A: Allocator>(
    text: &mut String<A>,
    was: &str,
    now: &str,
) -> Result<(), AllocError>
    ensures { OnOk result (Appends (changed_cell was.now now.now) text.old text.new) }
{
    text.push_str(cell_start(is_new(was, now)))?;
    text.push_str(now)?;
    text.push_str("</td>")
}

/// Adds the start of a row, up to its cells.
#[tactic(auto, unfolding(crate::specs::Tables::row_start))]
pub fn push_row_start<A: Allocator>(text: &mut String<A>, head: &str) -> Result<(), AllocError>
    ensures { OnOk result (Appends (row_start head.now) text.old text.new) }
{
    write!(text, "<tr><th scope=\"row\">{head}</th>")
}

/// Adds a cell with a number.
#[tactic(auto, unfolding(crate::specs::Tables::number_cell))]
pub fn push_number<A: Allocator>(text: &mut String<A>, number: u64) -> Result<(), AllocError>
    ensures { OnOk result (Appends (number_cell number) text.old text.new) }
{
    write!(text, "<td>{number}</td>")
}

/// Adds a cell for each number.
pub fn push_numbers<A: Allocator>(text: &mut String<A>, numbers: &[u64]) -> Result<(), AllocError>
    ensures { OnOk result (Appends (flat_map number_cell numbers.now) text.old text.new) }
{
    for number in numbers {
        push_number(text, *number)?;
    }
    Ok(())
}

/// Adds an empty cell.
pub fn push_empty<A: Allocator>(text: &mut String<A>) -> Result<(), AllocError>
    ensures { OnOk result (Appends (td []) text.old text.new) }
{
    text.push_str("<td></td>")
}

/// Adds the end of a table.
#[tactic(auto, unfolding(crate::specs::Html::table_end))]
pub fn push_table_end<A: Allocator>(text: &mut String<A>) -> Result<(), AllocError>
    ensures { OnOk result (Appends table_end text.old text.new) }
{
    text.push_str("</tbody></table></div>\n")
}
