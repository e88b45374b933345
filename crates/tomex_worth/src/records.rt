//! The changes of a machine as CSV.

ghost use Rattle.std.specs.Prelude.{◌≡◌, ◌<◌, ◌++◌, ◌∷◌, [], length, map, slice_get, Some, IfOk, OnOk};
ghost use Rattle.std.specs.List.{flat_map};
ghost use Rattle.tomex_layout.specs.Rates.{rate_text};
ghost use Rattle.tomex_worth.specs.Changes.{IsMachine};
ghost use Rattle.tomex_worth.specs.WorthCsv.{change_fields, change_record, cycles_name, fields_under, if_trade};
ghost use Rattle.tomex_worth.specs.WorthCsv.{kind_of, name_of_kind, names_of, program_field, shown_programs};
ghost use Rattle.tomex_worth.specs.WorthCsv.{worth_csv_of};

use crate::changes::{Change, changes_of};
use crate::heading::Heading;
use crate::kind::Kind;
use crate::table::{Machine, text_under};
use std::alloc::{AllocError, Allocator, Global};
use tomex_layout::{CsvText, Fields, rate_text, signed_difference};
use tomex_pareto::{FrontRow, is_on};
use tomex_study::{Program, Study, Surveyed};

/// The programs that have a column: all if there are several.
fn shown_programs<A: Allocator>(study: &Study<A>) -> &[Program<A>]
    ensures { result.now ≡ shown_programs study.now }
{
    let programs = study.programs();
    if programs.len() > 1 { programs } else { &[] }
}

/// Adds the name of the column of a program's cycles.
fn push_cycles_name<A: Allocator>(
    fields: &mut Fields,
    heap: Global,
    program: &Program<A>,
) -> Result<(), AllocError>
    ensures { OnOk result (fields.new ≡ fields.old ++ cycles_name program.now ∷ []) }
{
    let name = program.name();
    fields.push(format!(in heap; "{name}_cycles")?.as_str())
}

/// Adds the names of the columns of these programs' cycles.
fn push_cycles_names<A: Allocator>(
    fields: &mut Fields,
    heap: Global,
    programs: &[Program<A>],
) -> Result<(), AllocError>
    ensures { OnOk result (fields.new ≡ fields.old ++ map cycles_name programs.now) }
{
    for program in programs {
        push_cycles_name(fields, heap, program)?;
    }
    Ok(())
}

/// The names of all columns.
#[tactic(auto, unfolding(crate::specs::WorthCsv::names_of))]
fn names_of<A: Allocator>(heap: Global, study: &Study<A>) -> Result<Fields, AllocError>
    ensures { IfOk result (λ fields. fields ≡ names_of study.now) }
{
    let names = [
        "part", "from", "to", "row", "cost", "cycles", "percent", "kind", "rate", "front",
    ];
    let mut fields = Fields::of_names(heap, names.as_slice())?;
    push_cycles_names(&mut fields, heap, shown_programs(study))?;
    Ok(fields)
}

/// Adds what kind of change it is, and the rate if it is a trade.
fn push_rate(
    fields: &mut Fields,
    heap: Global,
    own: FrontRow,
    other: FrontRow,
) -> Result<(), AllocError>
    ensures { OnOk result (fields.new ≡ fields.old ++ name_of_kind (kind_of own other)
        ∷ if_trade (kind_of own other) (rate_text own other) ∷ []) }
{
    let kind = Kind::of(own, other);
    fields.push(kind.name())?;
    match kind {
        Kind::Trade => fields.push(rate_text(heap, own, other)?.as_str()),
        _ => fields.push(""),
    }
}

/// Adds what a change has under a heading of the table.
#[tactic(auto, unfolding(crate::specs::Worth::text_under))]
fn push_under<A: Allocator>(
    fields: &mut Fields,
    heap: Global,
    surveyed: &Surveyed<'_, A>,
    own: FrontRow,
    change: Change,
    heading: Heading,
) -> Result<(), AllocError>
    requires own { own.row < length surveyed.now.rows }
    requires other { change.row.row < length surveyed.now.rows }
    ensures { OnOk result (fields.new ≡ fields.old ++ fields_under surveyed.now own change heading) }
{
    match heading {
        Heading::Rate => push_rate(fields, heap, own, change.row),
        Heading::Front => fields.push_flag(is_on(surveyed.front(), change.row.row)),
        Heading::Cost | Heading::Cycles | Heading::Percent => {
            fields.push_number(text_under(heap, surveyed, own, heading, change)?.as_str())
        }
        _ => fields.push(text_under(heap, surveyed, own, heading, change)?.as_str()),
    }
}

/// Adds what a change has under all headings.
#[tactic(auto, unfolding(crate::specs::WorthCsv::change_fields))]
fn push_headings<A: Allocator>(
    fields: &mut Fields,
    heap: Global,
    surveyed: &Surveyed<'_, A>,
    own: FrontRow,
    change: Change,
) -> Result<(), AllocError>
    requires own { own.row < length surveyed.now.rows }
    requires other { change.row.row < length surveyed.now.rows }
    ensures { OnOk result (fields.new ≡ fields.old ++ change_fields surveyed.now own change) }
{
    for heading in Heading::ALL {
        push_under(fields, heap, surveyed, own, change, heading)?;
    }
    Ok(())
}

/// Adds the difference of the cycles of a program, the study's at this place.
fn push_program<A: Allocator>(
    fields: &mut Fields,
    heap: Global,
    surveyed: &Surveyed<'_, A>,
    own: FrontRow,
    change: Change,
    place: usize,
    program: &Program<A>,
) -> Result<(), AllocError>
    requires own { own.row < length surveyed.now.rows }
    requires other { change.row.row < length surveyed.now.rows }
    requires program { slice_get surveyed.now.programs place ≡ Some program.now }
    ensures { OnOk result (fields.new ≡ fields.old ++ program_field surveyed.now own change program.now ∷ []) }
{
    let (own, other) = (
        surveyed.total(own.row, place),
        surveyed.total(change.row.row, place),
    );
    fields.push_number(signed_difference(heap, own, other)?.as_str())
}

/// Adds the difference of the cycles of each program that has a column.
fn push_programs<A: Allocator>(
    fields: &mut Fields,
    heap: Global,
    surveyed: &Surveyed<'_, A>,
    own: FrontRow,
    change: Change,
) -> Result<(), AllocError>
    requires own { own.row < length surveyed.now.rows }
    requires other { change.row.row < length surveyed.now.rows }
    ensures { OnOk result (fields.new ≡ fields.old
        ++ map (program_field surveyed.now own change) (shown_programs surveyed.now)) }
{
    for (place, program) in shown_programs(surveyed.study()).iter().enumerate() {
        push_program(fields, heap, surveyed, own, change, place, program)?;
    }
    Ok(())
}

/// The text with the record of each change.
#[tactic(auto, unfolding(crate::specs::WorthCsv::change_record))]
fn with_changes<A: Allocator>(
    text: CsvText<A>,
    heap: Global,
    surveyed: &Surveyed<'_, A>,
    machine: Machine<'_>,
) -> Result<CsvText<A>, AllocError>
    requires { IsMachine surveyed.now machine.own machine.changes.now }
    ensures { IfOk result (λ made. made
        ≡ text ++ flat_map (change_record surveyed.now machine.entry.own) machine.entry.changes.now) }
{
    let mut made = text;
    for change in machine.changes {
        let mut fields = Fields::new(heap);
        push_headings(&mut fields, heap, surveyed, machine.own, *change)?;
        push_programs(&mut fields, heap, surveyed, machine.own, *change)?;
        made = made.with(&fields)?;
    }
    Ok(made)
}

/// The effect of each change of one list on a machine, the study's configuration of this number, as CSV: a header, and
/// a record for each line of its table except the machine's own. Cost and cycles are differences from the machine.
///
/// Small values are allocated in `heap`.
#[tactic(auto, unfolding(crate::specs::WorthCsv::worth_csv_of))]
pub fn worth_csv<A: Allocator>(
    alloc: A,
    heap: Global,
    surveyed: &Surveyed<'_, A>,
    row: usize,
) -> Result<Vec<u8, A>, AllocError>
    requires { row < length surveyed.now.rows }
    ensures { IfOk result (λ text. text.items ≡ worth_csv_of surveyed.now row) }
{
    let own = surveyed.row(row);
    let changes = changes_of(heap, surveyed, own)?;
    let machine = Machine {
        own,
        changes: changes.as_slice(),
    };
    let names = names_of(heap, surveyed.study())?;
    let text = CsvText::new(alloc).with(&names)?;
    with_changes(text, heap, surveyed, machine)?.into_bytes()
}
