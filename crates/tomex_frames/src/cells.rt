//! The cells of an instruction's row.

ghost use Rattle.std.specs.Prelude.{◌≡◌};
ghost use Rattle.tomex_frames.specs.Cells.{address_cell, cycle_by, execute_cell, issue_cell, station_cell, took};
ghost use Rattle.tomex_frames.specs.Cells.{unused_cell, write_cell};

use std::fmt;
use tomex_html::cell_start;
use tomex_snapshots::Entry;
use tomex_timing::Tag;

/// The content of a cell.
#[derive(Clone, Copy)]
pub enum Content {
    Nothing,
    /// The step does nothing of this kind.
    NotUsed,
    Station(Tag),
    Cycle(u64),
    /// The execution began in this cycle, and continues.
    Since(u64),
    /// The first and the last cycle of the execution.
    Took(u64, u64),
}

impl fmt::Display for Content {
    ghost use Rattle.std.specs.Prelude.{Some};
    ghost use Rattle.tomex_frames.specs.Cells.{content_text};

    ghost output = { λ content. Some (content_text content) };

    fn fmt<W: fmt::Write>(&self, f: &mut fmt::Formatter<W>) -> fmt::Result {
        match *self {
            Content::Nothing => Ok(()),
            Content::NotUsed => write!(f, "-"),
            Content::Station(Tag { pool, number }) => write!(f, "{pool}{number}"),
            Content::Cycle(cycle) => write!(f, "{cycle}"),
            Content::Since(start) => write!(f, "{start}&#8211;"),
            Content::Took(start, finish) => write!(f, "{start}&#8211;{finish}"),
        }
    }
}

#[derive(Clone, Copy)]
pub struct Cell {
    /// True if the content appeared in the view's cycle.
    pub new: bool,
    pub content: Content,
}

impl fmt::Display for Cell {
    ghost use Rattle.std.specs.Prelude.{Some};
    ghost use Rattle.tomex_frames.specs.Cells.{cell_text};

    ghost output = { λ cell. Some (cell_text cell) };

    fn fmt<W: fmt::Write>(&self, f: &mut fmt::Formatter<W>) -> fmt::Result {
        let (start, content) = (cell_start(self.new), self.content);
        write!(f, "{start}{content}</td>")
    }
}

/// A cycle, after it has been reached.
fn cycle_by(by: u64, cycle: u64) -> Content
    ensures { result ≡ cycle_by by cycle }
{
    if cycle <= by {
        Content::Cycle(cycle)
    } else {
        Content::Nothing
    }
}

/// The cell of what a step doesn't have.
fn unused_cell(cycle: u64, entry: &Entry) -> Cell
    ensures { result ≡ unused_cell cycle entry.now }
{
    let content = if entry.at.issue <= cycle {
        Content::NotUsed
    } else {
        Content::Nothing
    };
    Cell {
        new: false,
        content,
    }
}

/// The step's station, after it has issued.
pub fn station_cell(cycle: u64, entry: &Entry) -> Cell
    ensures { result ≡ station_cell cycle entry.now }
{
    let issue = entry.at.issue;
    let station = entry.station();
    let content = match station {
        Some(tag) if issue <= cycle => Content::Station(tag),
        _ => Content::Nothing,
    };
    Cell {
        new: issue == cycle && station.is_some(),
        content,
    }
}

/// The cycle of the step's issue.
pub fn issue_cell(cycle: u64, entry: &Entry) -> Cell
    ensures { result ≡ issue_cell cycle entry.now }
{
    let issue = entry.at.issue;
    Cell {
        new: issue == cycle,
        content: cycle_by(cycle, issue),
    }
}

/// The cycle in which a load or store computes its address.
pub fn address_cell(cycle: u64, entry: &Entry) -> Cell
    ensures { result ≡ address_cell cycle entry.now }
{
    match entry.at.address {
        Some(address) => Cell {
            new: address == cycle,
            content: cycle_by(cycle, address),
        },
        None => unused_cell(cycle, entry),
    }
}

/// A completed execution, by its first and its last cycle.
fn took(start: u64, finish: u64) -> Content
    ensures { result ≡ took start finish }
{
    if start == finish {
        Content::Cycle(start)
    } else {
        Content::Took(start, finish)
    }
}

/// The cycles in the step's unit, as far as they have been reached.
pub fn execute_cell(cycle: u64, entry: &Entry) -> Cell
    ensures { result ≡ execute_cell cycle entry.now }
{
    let (start, finish) = (entry.at.start, entry.at.finish);
    if !entry.has_unit() {
        return unused_cell(cycle, entry);
    }
    if cycle < start {
        return Cell {
            new: false,
            content: Content::Nothing,
        };
    }
    if cycle < finish {
        return Cell {
            new: start == cycle,
            content: Content::Since(start),
        };
    }
    Cell {
        new: finish == cycle,
        content: took(start, finish),
    }
}

/// The cycle in which the step's result is sent.
pub fn write_cell(cycle: u64, entry: &Entry) -> Cell
    ensures { result ≡ write_cell cycle entry.now }
{
    let end = entry.at.end;
    if entry.has_unit() && entry.step.dest().is_some() {
        Cell {
            new: end == cycle,
            content: cycle_by(cycle, end),
        }
    } else {
        unused_cell(cycle, entry)
    }
}
