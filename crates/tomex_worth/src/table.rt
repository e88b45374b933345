//! The table of a machine.

ghost use Rattle.std.specs.Prelude.{◌≡◌, ◌<◌, ◌++◌, if◌then◌else◌, slice_get, Some};
ghost use Rattle.std.specs.Prelude.{codes, length, map, IfOk, OnOk, string_bytes};
ghost use Rattle.tomex_pareto.specs.Front.{is_on};
ghost use Rattle.tomex_worth.specs.Changes.{IsMachine};
ghost use Rattle.tomex_worth.specs.Worth.{all_headings, heading_column, own_under, program_column, program_columns};
ghost use Rattle.tomex_worth.specs.Worth.{text_under, worth_table_of};

use crate::changes::{Change, changes_of};
use crate::heading::Heading;
use std::alloc::{AllocError, Allocator, Global};
use tomex_layout::{
    Column, entry_text, name_of_list, percent, rate_text, signed_difference, table_of,
};
use tomex_pareto::{FrontRow, is_on};
use tomex_study::{Program, Surveyed};

/// A machine, and the rows that differ from it in only one list.
#[derive(Clone, Copy)]
pub(crate) struct Machine<'m> {
    pub(crate) own: FrontRow,
    pub(crate) changes: &'m [Change],
}

/// The text of the column `front` for a row.
fn front_text(heap: Global, front: &[FrontRow], row: usize) -> Result<String, AllocError>
    ensures { IfOk result (λ text. string_bytes text
        ≡ (if is_on front.now row then codes "yes" else codes "-")) }
{
    if is_on(front, row) {
        format!(in heap; "yes")
    } else {
        format!(in heap; "-")
    }
}

/// The text under a heading in the machine's own line.
fn own_under<A: Allocator>(
    heap: Global,
    surveyed: &Surveyed<'_, A>,
    own: FrontRow,
    heading: Heading,
) -> Result<String, AllocError>
    ensures { IfOk result (λ text. string_bytes text ≡ own_under surveyed.now own heading) }
{
    let FrontRow { row, cost, cycles } = own;
    match heading {
        Heading::Row => format!(in heap; "{row}"),
        Heading::Cost => format!(in heap; "{cost}"),
        Heading::Cycles => format!(in heap; "{cycles}"),
        Heading::Front => front_text(heap, surveyed.front(), row),
        _ => format!(in heap; "-"),
    }
}

/// The text under a heading in the line of a change.
#[tactic(auto, unfolding(crate::specs::Worth::text_under))]
pub(crate) fn text_under<A: Allocator>(
    heap: Global,
    surveyed: &Surveyed<'_, A>,
    own: FrontRow,
    heading: Heading,
    change: Change,
) -> Result<String, AllocError>
    requires own { own.row < length surveyed.now.rows }
    requires other { change.row.row < length surveyed.now.rows }
    ensures { IfOk result (λ text. string_bytes text ≡ text_under surveyed.now own heading change) }
{
    let other = change.row;
    let number = other.row;
    match heading {
        Heading::Part => name_of_list(heap, change.part),
        Heading::From => entry_text(heap, surveyed.config(own.row), change.part),
        Heading::To => entry_text(heap, surveyed.config(number), change.part),
        Heading::Row => format!(in heap; "{number}"),
        Heading::Cost => signed_difference(heap, own.cost, other.cost),
        Heading::Cycles => signed_difference(heap, own.cycles, other.cycles),
        Heading::Percent => percent(heap, own.cycles, other.cycles),
        Heading::Rate => rate_text(heap, own, other),
        Heading::Front => front_text(heap, surveyed.front(), number),
    }
}

#[tactic(auto, unfolding(crate::specs::Worth::heading_column))]
fn heading_column<A: Allocator>(
    heap: Global,
    surveyed: &Surveyed<'_, A>,
    machine: Machine<'_>,
    heading: Heading,
) -> Result<Column, AllocError>
    requires { IsMachine surveyed.now machine.own machine.changes.now }
    ensures { IfOk result (λ c. c ≡ heading_column surveyed.now machine.entry.own heading) }
{
    let own = machine.own;
    let name = heading.name();
    let mut column = Column::new(heap, format!(in heap; "{name}")?);
    column.push(own_under(heap, surveyed, own, heading)?)?;
    for change in machine.changes {
        column.push(text_under(heap, surveyed, own, heading, *change)?)?;
    }
    Ok(column)
}

/// Adds the columns of all headings.
fn push_headings<A: Allocator>(
    columns: &mut Vec<Column>,
    heap: Global,
    surveyed: &Surveyed<'_, A>,
    machine: Machine<'_>,
) -> Result<(), AllocError>
    requires { IsMachine surveyed.now machine.own machine.changes.now }
    ensures { OnOk result (columns.new.items
        ≡ columns.old.items ++ map (heading_column surveyed.now machine.entry.own) all_headings) }
{
    for heading in Heading::ALL {
        columns.push(heading_column(heap, surveyed, machine, heading)?)?;
    }
    Ok(())
}

/// The column of a program, the study's at this place.
#[tactic(auto, unfolding(crate::specs::Worth::program_column))]
fn program_column<A: Allocator>(
    heap: Global,
    surveyed: &Surveyed<'_, A>,
    machine: Machine<'_>,
    place: usize,
    program: &Program<A>,
) -> Result<Column, AllocError>
    requires program { slice_get surveyed.now.programs place ≡ Some program.now }
    requires machine { IsMachine surveyed.now machine.own machine.changes.now }
    ensures { IfOk result (λ c. c ≡ program_column surveyed.now machine.entry.own program.now) }
{
    let name = program.name();
    let mut column = Column::new(heap, format!(in heap; "{name}")?);
    let total = surveyed.total(machine.own.row, place);
    column.push(format!(in heap; "{total}")?)?;
    for change in machine.changes {
        let other = surveyed.total(change.row.row, place);
        column.push(signed_difference(heap, total, other)?)?;
    }
    Ok(column)
}

/// Adds a column for each program.
fn push_each_program<A: Allocator>(
    columns: &mut Vec<Column>,
    heap: Global,
    surveyed: &Surveyed<'_, A>,
    machine: Machine<'_>,
) -> Result<(), AllocError>
    requires { IsMachine surveyed.now machine.own machine.changes.now }
    ensures { OnOk result (columns.new.items
        ≡ columns.old.items ++ map (program_column surveyed.now machine.entry.own) surveyed.now.programs) }
{
    for (place, program) in surveyed.study().programs().iter().enumerate() {
        columns.push(program_column(heap, surveyed, machine, place, program)?)?;
    }
    Ok(())
}

/// Adds a column for each program, if there are several.
fn push_programs<A: Allocator>(
    columns: &mut Vec<Column>,
    heap: Global,
    surveyed: &Surveyed<'_, A>,
    machine: Machine<'_>,
) -> Result<(), AllocError>
    requires { IsMachine surveyed.now machine.own machine.changes.now }
    ensures { OnOk result (columns.new.items ≡ columns.old.items ++ program_columns surveyed.now machine.entry.own) }
{
    if surveyed.study().programs().len() > 1 {
        push_each_program(columns, heap, surveyed, machine)?;
    }
    Ok(())
}

/// The effect of each change of one list on a machine, the study's configuration of this number, as
/// a table: a line of names, the machine itself, and a line for each row that differs from it in
/// one list, list by list, then by number.
///
/// Small values are allocated in `heap`.
pub fn worth_table<A: Allocator>(
    alloc: A,
    heap: Global,
    surveyed: &Surveyed<'_, A>,
    row: usize,
) -> Result<Vec<u8, A>, AllocError>
    requires { row < length surveyed.now.rows }
    ensures { IfOk result (λ text. text.items ≡ worth_table_of surveyed.now row) }
{
    let own = surveyed.row(row);
    let changes = changes_of(heap, surveyed, own)?;
    let machine = Machine {
        own,
        changes: changes.as_slice(),
    };
    let mut columns = Vec::new(heap);
    push_headings(&mut columns, heap, surveyed, machine)?;
    push_programs(&mut columns, heap, surveyed, machine)?;
    table_of(alloc, machine.changes.len() + 1, columns.as_slice())
}
