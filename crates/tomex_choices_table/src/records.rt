//! What was found out of a study's lists as CSV.

ghost use Rattle.std.specs.Prelude.{◌≡◌, ◌++◌, ◌∷◌, [], map, IfOk, OnOk};
ghost use Rattle.std.specs.List.{flat_map};
ghost use Rattle.tomex_choices_table.specs.ChoicesCsv.{after_space, choices_csv_of, entries_field, field_under};
ghost use Rattle.tomex_choices_table.specs.ChoicesCsv.{list_record, names};
ghost use Rattle.tomex_choices_table.specs.ChoicesTable.{all_headings};
ghost use Rattle.tomex_layout.specs.Csv.{record_text};
ghost use Rattle.tomex_layout.specs.Growth.{Appends};

use crate::heading::Heading;
use crate::table::text_under;
use std::alloc::{AllocError, Allocator, Global};
use tomex_config::{Config, Part};
use tomex_layout::{CsvText, Fields, push_entry};
use tomex_study::ListReport;

/// Adds configurations' entries in a part's list, each after a space.
#[tactic(auto, unfolding(crate::specs::ChoicesCsv::after_space))]
fn push_others(text: &mut String, part: Part, configs: &[Config]) -> Result<(), AllocError>
    ensures { OnOk result (Appends (flat_map (after_space part) configs.now) text.old text.new) }
{
    for config in configs {
        text.push_str(" ")?;
        push_entry(text, config, part)?;
    }
    Ok(())
}

/// Adds the entries of some configurations in a part's list, with spaces between them.
fn push_entries(
    fields: &mut Fields,
    heap: Global,
    part: Part,
    configs: &[Config],
) -> Result<(), AllocError>
    ensures { OnOk result (fields.new ≡ fields.old ++ entries_field part configs.now ∷ []) }
{
    let mut text = String::new(heap);
    if let [first, rest @ ..] = configs {
        push_entry(&mut text, first, part)?;
        push_others(&mut text, part, rest)?;
    }
    fields.push(text.as_str())
}

/// Adds what a list has under a heading of the table.
fn push_under(
    fields: &mut Fields,
    heap: Global,
    list: &ListReport,
    heading: Heading,
) -> Result<(), AllocError>
    ensures { OnOk result (fields.new ≡ fields.old ++ field_under list.now heading ∷ []) }
{
    match heading {
        Heading::List => fields.push(text_under(heap, list, heading)?.as_str()),
        Heading::Front => push_entries(fields, heap, list.part, list.front.as_slice()),
        Heading::Unused => push_entries(fields, heap, list.part, list.unused.as_slice()),
        Heading::Add => push_entries(fields, heap, list.part, list.additions.as_slice()),
        Heading::Percent | Heading::Cost | Heading::Enough => {
            fields.push_number(text_under(heap, list, heading)?.as_str())
        }
    }
}

/// The fields of a list.
fn fields_of(heap: Global, list: &ListReport) -> Result<Fields, AllocError>
    ensures { IfOk result (λ fields. fields ≡ map (field_under list.now) all_headings) }
{
    let mut fields = Fields::new(heap);
    for heading in Heading::ALL {
        push_under(&mut fields, heap, list, heading)?;
    }
    Ok(fields)
}

/// The header.
fn header<A: Allocator>(alloc: A, heap: Global) -> Result<CsvText<A>, AllocError>
    ensures { IfOk result (λ made. made ≡ record_text names) }
{
    let names = [
        "list", "front", "unused", "add", "percent", "cost", "enough",
    ];
    CsvText::with_header(alloc, heap, names.as_slice())
}

/// The table of what was found out of lists as CSV: a header, and a record for each list. Entries have spaces between
/// them.
///
/// Everything except the text is allocated in `heap`.
#[tactic(auto, unfolding(crate::specs::ChoicesCsv::list_record))]
pub fn choices_csv<A: Allocator>(
    alloc: A,
    heap: Global,
    lists: &[ListReport],
) -> Result<Vec<u8, A>, AllocError>
    ensures { IfOk result (λ text. text.items ≡ choices_csv_of lists.now) }
{
    let mut text = header(alloc, heap)?;
    for list in lists {
        text = text.with(&fields_of(heap, list)?)?;
    }
    text.into_bytes()
}
