//! Instruction status.

ghost use Rattle.std.specs.Prelude.{◌≡◌, OnOk, count_by};
ghost use Rattle.std.specs.List.{flat_map};
ghost use Rattle.tomex_rvexec.specs.Steps.{is_number};
ghost use Rattle.tomex_layout.specs.Growth.{Appends};
ghost use Rattle.tomex_snapshots.specs.Entries.{is_listed_in};
ghost use Rattle.tomex_frames.specs.Status.{listed_cycles, row_cells, row_class, row_head, row_if};
ghost use Rattle.tomex_frames.specs.Status.{status_table, step_row};

use crate::cells::{address_cell, execute_cell, issue_cell, station_cell, write_cell};
use crate::constants::status_head;
use crate::doing::{Words, doing_in};
use std::alloc::{AllocError, Allocator};
use std::fmt::Write;
use tomex_html::push_table_end;
use tomex_snapshots::{Entry, Span};

/// The most steps of a table that keeps its rows from view to view.
const FEW_STEPS: usize = 16;

/// True if the step is the one with the frame, by its number.
fn is_framed(framed: Option<u64>, entry: &Entry) -> bool
    ensures { result ≡ is_number framed entry.now.number }
{
    match framed {
        Some(step) => step == entry.number as u64,
        None => false,
    }
}

/// The class of a row: a frame for the step on the path; paler before a step's issue and after its end.
fn row_class(framed: Option<u64>, cycle: u64, entry: &Entry) -> &'static str
    ensures { result.now ≡ row_class framed cycle entry.now }
{
    if is_framed(framed, entry) {
        " class=\"p\""
    } else if cycle < entry.at.issue {
        " class=\"f\""
    } else if entry.at.end < cycle {
        " class=\"o\""
    } else {
        ""
    }
}

/// Adds the start of a row: the step's number and its instruction.
#[tactic(auto, unfolding(crate::specs::Status::row_head))]
fn push_row_head<A: Allocator>(
    text: &mut String<A>,
    framed: Option<u64>,
    cycle: u64,
    entry: &Entry,
) -> Result<(), AllocError>
    ensures { OnOk result (Appends (row_head framed cycle entry.now) text.old text.new) }
{
    let class = row_class(framed, cycle, entry);
    let (number, instr) = (entry.number, entry.step.instr);
    write!(
        text,
        "<tr{class}><td>{number}</td><th scope=\"row\">{instr}</th>"
    )
}

#[tactic(auto, unfolding(crate::specs::Status::row_cells))]
fn push_row_cells<A: Allocator>(
    text: &mut String<A>,
    cycle: u64,
    entry: &Entry,
) -> Result<(), AllocError>
    ensures { OnOk result (Appends (row_cells cycle entry.now) text.old text.new) }
{
    let (station, issue) = (station_cell(cycle, entry), issue_cell(cycle, entry));
    let (address, execute) = (address_cell(cycle, entry), execute_cell(cycle, entry));
    let write = write_cell(cycle, entry);
    write!(text, "{station}{issue}{address}{execute}{write}")
}

#[tactic(auto, unfolding(crate::specs::Status::step_row))]
fn push_row<A: Allocator>(
    text: &mut String<A>,
    framed: Option<u64>,
    cycle: u64,
    entry: &Entry,
) -> Result<(), AllocError>
    ensures { OnOk result (Appends (step_row framed cycle entry.now) text.old text.new) }
{
    let words = Words(doing_in(cycle, entry));
    push_row_head(text, framed, cycle, entry)?;
    push_row_cells(text, cycle, entry)?;
    write!(text, "<td>{words}</td></tr>\n")
}

/// The number of steps that are listed in some of these cycles.
fn count_in(span: Span, entries: &[Entry]) -> usize
    ensures { result ≡ count_by (is_listed_in span) entries.now }
{
    entries
        .iter()
        .filter(|entry| entry.is_listed_in(span))
        .count()
}

/// The cycles whose steps are listed in the view of a cycle.
pub fn listed_cycles(page: Span, entries: &[Entry], cycle: u64) -> Span
    ensures { result ≡ listed_cycles page entries.now cycle }
{
    if count_in(page, entries) <= FEW_STEPS {
        page
    } else {
        Span {
            from: cycle.saturating_sub(2),
            to: cycle,
        }
    }
}

/// Adds the rows of the steps that are listed in some of these cycles.
fn push_rows<A: Allocator>(
    text: &mut String<A>,
    framed: Option<u64>,
    span: Span,
    cycle: u64,
    entries: &[Entry],
) -> Result<(), AllocError>
    ensures { OnOk result (Appends (flat_map (row_if framed span cycle) entries.now) text.old text.new) }
{
    for entry in entries {
        if entry.is_listed_in(span) {
            push_row(text, framed, cycle, entry)?;
        }
    }
    Ok(())
}

/// Adds the table of instructions. `framed` is the number of the step with the frame.
#[tactic(auto, unfolding(crate::specs::Status::status_table))]
pub fn push_status_table<A: Allocator>(
    text: &mut String<A>,
    framed: Option<u64>,
    page: Span,
    entries: &[Entry],
    cycle: u64,
) -> Result<(), AllocError>
    ensures { OnOk result (Appends (status_table framed page entries.now cycle) text.old text.new) }
{
    let span = listed_cycles(page, entries, cycle);
    text.push_str(status_head())?;
    push_rows(text, framed, span, cycle, entries)?;
    push_table_end(text)
}
