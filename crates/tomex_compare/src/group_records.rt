//! The groups as CSV.

ghost use Rattle.std.specs.Prelude.{◌≡◌, ◌++◌, ◌∷◌, [], map, IfOk, OnOk};
ghost use Rattle.std.specs.List.{flat_map};
ghost use Rattle.tomex_compare.specs.GroupCsv.{field_under, group_csv_of, group_record, value_field};
ghost use Rattle.tomex_compare.specs.GroupTable.{all_headings, name_under};
ghost use Rattle.tomex_layout.specs.Csv.{record_text};

use crate::group_table::{Heading, text_under};
use crate::groups::Group;
use std::alloc::{AllocError, Allocator, Global};
use tomex_layout::{CsvText, Fields};

/// What a group's rows have in common, or nothing if they are all rows.
fn value_of(group: &Group) -> &str
    ensures { result.now ≡ value_field group.now }
{
    if group.part.as_str() == "all" {
        ""
    } else {
        group.value.as_str()
    }
}

/// Adds what a group has under a heading of the table.
fn push_under(
    fields: &mut Fields,
    heap: Global,
    group: &Group,
    heading: Heading,
) -> Result<(), AllocError>
    ensures { OnOk result (fields.new ≡ fields.old ++ field_under group.now heading ∷ []) }
{
    match heading {
        Heading::Value => fields.push(value_of(group)),
        Heading::Best | Heading::BestRow | Heading::Median | Heading::Worst | Heading::WorstRow => {
            fields.push_number(text_under(heap, heading, group)?.as_str())
        }
        _ => fields.push(text_under(heap, heading, group)?.as_str()),
    }
}

/// The fields of a group.
fn fields_of(heap: Global, group: &Group) -> Result<Fields, AllocError>
    ensures { IfOk result (λ fields. fields ≡ map (field_under group.now) all_headings) }
{
    let mut fields = Fields::new(heap);
    for heading in Heading::ALL {
        push_under(&mut fields, heap, group, heading)?;
    }
    Ok(fields)
}

/// The names of the columns.
fn names(heap: Global) -> Result<Fields, AllocError>
    ensures { IfOk result (λ fields. fields ≡ map name_under all_headings) }
{
    let mut fields = Fields::new(heap);
    for heading in Heading::ALL {
        fields.push(heading.name())?;
    }
    Ok(fields)
}

/// The groups as CSV: a header, and a record for each group.
#[tactic(auto, unfolding(crate::specs::GroupCsv::group_csv_of, crate::specs::GroupCsv::group_record))]
pub fn group_csv<A: Allocator>(
    alloc: A,
    heap: Global,
    groups: &[Group],
) -> Result<Vec<u8, A>, AllocError>
    ensures { IfOk result (λ text. text.items ≡ group_csv_of groups.now) }
{
    let mut text = CsvText::new(alloc).with(&names(heap)?)?;
    for group in groups {
        text = text.with(&fields_of(heap, group)?)?;
    }
    text.into_bytes()
}
