//! The table of what was found out of a study's lists.

ghost use Rattle.std.specs.Prelude.{◌≡◌, ◌++◌, map, IfOk, OnOk, string_bytes};
ghost use Rattle.tomex_layout.specs.Growth.{Appends};
ghost use Rattle.tomex_choices_table.specs.ChoicesTable.{all_headings, both_floors, choices_table_of, floor_text};
ghost use Rattle.tomex_choices_table.specs.ChoicesTable.{floors_text, heading_column, text_under};

use crate::cells::{push_cost, push_enough, push_entries, push_saving};
use crate::heading::Heading;
use std::alloc::{AllocError, Allocator, Global};
use std::fmt::Write;
use tomex_layout::{Column, push_name_of_list, push_percent, table_of};
use tomex_study::{Floors, ListReport};

/// Adds the text under a heading in the line of a list.
fn push_under<A: Allocator>(
    text: &mut String<A>,
    list: &ListReport,
    heading: Heading,
) -> Result<(), AllocError>
    ensures { OnOk result (Appends (text_under heading list.now) text.old text.new) }
{
    match heading {
        Heading::List => push_name_of_list(text, list.part),
        Heading::Front => push_entries(text, list.part, list.front.as_slice()),
        Heading::Unused => push_entries(text, list.part, list.unused.as_slice()),
        Heading::Add => push_entries(text, list.part, list.additions.as_slice()),
        Heading::Percent => push_saving(text, list.saving),
        Heading::Cost => push_cost(text, list.saving),
        Heading::Enough => push_enough(text, list.part, list.enough),
    }
}

/// The text under a heading in the line of a list.
pub(crate) fn text_under(
    heap: Global,
    list: &ListReport,
    heading: Heading,
) -> Result<String, AllocError>
    ensures { IfOk result (λ text. string_bytes text ≡ text_under heading list.now) }
{
    let mut text = String::new(heap);
    push_under(&mut text, list, heading)?;
    Ok(text)
}

#[tactic(auto, unfolding(crate::specs::ChoicesTable::heading_column))]
fn heading_column(
    heap: Global,
    lists: &[ListReport],
    heading: Heading,
) -> Result<Column, AllocError>
    ensures { IfOk result (λ c. c ≡ heading_column lists.now heading) }
{
    let name = heading.name();
    let mut column = Column::new(heap, format!(in heap; "{name}")?);
    for list in lists {
        column.push(text_under(heap, list, heading)?)?;
    }
    Ok(column)
}

fn all_columns(heap: Global, lists: &[ListReport]) -> Result<Vec<Column>, AllocError>
    ensures { IfOk result (λ v. v.items ≡ map (heading_column lists.now) all_headings) }
{
    let mut columns = Vec::new(heap);
    for heading in Heading::ALL {
        columns.push(heading_column(heap, lists, heading)?)?;
    }
    Ok(columns)
}

/// Adds a floor, and its difference from the fewest cycles in percent of these.
#[tactic(auto, unfolding(crate::specs::ChoicesTable::floor_text))]
pub fn push_floor<A: Allocator>(
    text: &mut String<A>,
    fastest: u64,
    floor: u64,
) -> Result<(), AllocError>
    ensures { OnOk result (Appends (floor_text fastest floor) text.old text.new) }
{
    write!(text, "{floor} (")?;
    push_percent(text, fastest, floor)?;
    text.push_str("%)")
}

/// Adds both floors.
#[tactic(auto, unfolding(crate::specs::ChoicesTable::both_floors))]
fn push_both_floors<A: Allocator>(text: &mut String<A>, floors: Floors) -> Result<(), AllocError>
    ensures { OnOk result (Appends (both_floors floors) text.old text.new) }
{
    push_floor(text, floors.fastest, floors.own)?;
    text.push_str(", at any width ")?;
    push_floor(text, floors.fastest, floors.any_width)
}

/// Adds the line of the fewest cycles and the floors.
#[tactic(auto, unfolding(crate::specs::ChoicesTable::floors_text))]
fn push_floors<A: Allocator>(text: &mut String<A>, floors: Floors) -> Result<(), AllocError>
    ensures { OnOk result (Appends (floors_text floors) text.old text.new) }
{
    let fastest = floors.fastest;
    write!(text, "fastest {fastest}, floor ")?;
    push_both_floors(text, floors)?;
    text.push_str("\n")
}

/// The table of what was found out of lists, with a line for each, and then the line of the fewest cycles and the
/// floors.
///
/// Everything except the text is allocated in `heap`.
#[tactic(auto, unfolding(crate::specs::ChoicesTable::choices_table_of))]
pub fn choices_table<A: Allocator>(
    alloc: A,
    heap: Global,
    lists: &[ListReport],
    floors: Floors,
) -> Result<Vec<u8, A>, AllocError>
    ensures { IfOk result (λ text. text.items ≡ choices_table_of lists.now floors) }
{
    let columns = all_columns(heap, lists)?;
    let mut line = String::new(heap);
    push_floors(&mut line, floors)?;
    let mut text = table_of(alloc, lists.len(), columns.as_slice())?;
    text.extend_from_slice(line.as_bytes())?;
    Ok(text)
}
