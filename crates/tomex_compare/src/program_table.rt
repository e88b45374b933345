//! The table of the two builds: their steps, and their cycles at best and at worst.

ghost use Rattle.std.specs.Prelude.{◌≡◌, length, IfOk, map, string_bytes};
ghost use Rattle.std.specs.Fmt.{decimal};
ghost use Rattle.tomex_layout.specs.Differences.{percent};
ghost use Rattle.tomex_compare.specs.Builds.{IsBuild};
ghost use Rattle.tomex_compare.specs.ProgramTable.{all_headings, change_under, heading_column, name_under, profile_of};
ghost use Rattle.tomex_compare.specs.ProgramTable.{program_table_of, text_under};

use crate::build::Build;
use crate::extremes::{RowCycles, best_row, worst_row};
use std::alloc::{AllocError, Allocator, Global};
use std::marker::Model;
use tomex_layout::{Column, push_percent, table_of};
use tomex_study::Surveyed;

/// A column's heading: which property of a build it shows.
#[derive(Clone, Copy)]
pub enum Heading {
    /// The program's name.
    Program,
    /// The instructions that it runs.
    Steps,
    /// Its least cycles, and the first row with so few.
    Best,
    BestRow,
    /// Its greatest cycles, and the last row with as many.
    Worst,
    WorstRow,
}

impl Heading {
    /// All headings, in the table's order.
    pub const ALL: [Heading; 6] = [
        Heading::Program,
        Heading::Steps,
        Heading::Best,
        Heading::BestRow,
        Heading::Worst,
        Heading::WorstRow,
    ];

    /// Its name.
    pub fn name(self) -> &'static str
        ensures { result.now ≡ name_under self }
    {
        match self {
            Heading::Program => "program",
            Heading::Steps => "steps",
            Heading::Best => "best",
            Heading::BestRow => "best_row",
            Heading::Worst => "worst",
            Heading::WorstRow => "worst_row",
        }
    }
}

/// What the table shows of a build.
#[derive(Drop)]
pub struct Profile<'n> {
    pub name: &'n str,
    pub steps: u64,
    pub best: RowCycles,
    pub worst: RowCycles,
}

impl<'n> Model for Profile<'n> {
    ghost use Rattle.tomex_compare.specs.ProgramTable.{BuildProfile};

    ghost Value = { BuildProfile };

    ghost view = { λ p. record { name = p.name.now; steps = p.steps; best = p.best; worst = p.worst } };
}

/// What the table shows of a build.
fn profile_of<'p, A: Allocator>(surveyed: &Surveyed<'_, A>, build: &Build<'p, A>) -> Profile<'p>
    requires { IsBuild surveyed.now build.now.place build.now.program.now }
    ensures { result ≡ profile_of surveyed.now build.now.program.now }
{
    Profile {
        name: build.program.name(),
        steps: build.program.steps().len() as u64,
        best: best_row(surveyed, build),
        worst: worst_row(surveyed, build),
    }
}

fn number_text(heap: Global, number: u64) -> Result<String, AllocError>
    ensures { IfOk result (λ text. string_bytes text ≡ decimal number) }
{
    format!(in heap; "{number}")
}

/// The text under a heading in a build's line.
fn text_under(heap: Global, heading: Heading, profile: &Profile<'_>) -> Result<String, AllocError>
    ensures { IfOk result (λ text. string_bytes text ≡ text_under heading profile.now) }
{
    match heading {
        Heading::Program => String::from_str(heap, profile.name),
        Heading::Steps => number_text(heap, profile.steps),
        Heading::Best => number_text(heap, profile.best.cycles),
        Heading::BestRow => number_text(heap, profile.best.row as u64),
        Heading::Worst => number_text(heap, profile.worst.cycles),
        Heading::WorstRow => number_text(heap, profile.worst.row as u64),
    }
}

fn percent_text(heap: Global, old: u64, new: u64) -> Result<String, AllocError>
    ensures { IfOk result (λ text. string_bytes text ≡ percent old new) }
{
    let mut text = String::new(heap);
    push_percent(&mut text, old, new)?;
    Ok(text)
}

/// The text under a heading in the line of the differences.
fn change_under(
    heap: Global,
    heading: Heading,
    old: &Profile<'_>,
    new: &Profile<'_>,
) -> Result<String, AllocError>
    ensures { IfOk result (λ text. string_bytes text ≡ change_under heading old.now new.now) }
{
    match heading {
        Heading::Program => format!(in heap; "%"),
        Heading::Steps => percent_text(heap, old.steps, new.steps),
        Heading::Best => percent_text(heap, old.best.cycles, new.best.cycles),
        Heading::Worst => percent_text(heap, old.worst.cycles, new.worst.cycles),
        Heading::BestRow | Heading::WorstRow => format!(in heap; "-"),
    }
}

/// The column under a heading: the old build, the new one, and the differences.
#[tactic(auto, unfolding(crate::specs::ProgramTable::heading_column))]
fn heading_column(
    heap: Global,
    heading: Heading,
    old: &Profile<'_>,
    new: &Profile<'_>,
) -> Result<Column, AllocError>
    ensures { IfOk result (λ c. c ≡ heading_column old.now new.now heading) }
{
    let name = heading.name();
    let mut column = Column::new(heap, format!(in heap; "{name}")?);
    column.push(text_under(heap, heading, old)?)?;
    column.push(text_under(heap, heading, new)?)?;
    column.push(change_under(heap, heading, old, new)?)?;
    Ok(column)
}

/// The columns of all headings.
fn columns_of(heap: Global, old: &Profile<'_>, new: &Profile<'_>) -> Result<Vec<Column>, AllocError>
    ensures { IfOk result (λ v. v.items ≡ map (heading_column old.now new.now) all_headings) }
{
    let mut columns = Vec::new(heap);
    for heading in Heading::ALL {
        columns.push(heading_column(heap, heading, old, new)?)?;
    }
    Ok(columns)
}

/// The table of two builds: a line of names, a line for each, and a line of their differences in percent.
#[tactic(auto, unfolding(crate::specs::ProgramTable::program_table_of))]
pub fn program_table<'p, A: Allocator>(
    alloc: A,
    heap: Global,
    surveyed: &Surveyed<'_, A>,
    old: &Build<'p, A>,
    new: &Build<'p, A>,
) -> Result<Vec<u8, A>, AllocError>
    requires old { IsBuild surveyed.now old.now.place old.now.program.now }
    requires new { IsBuild surveyed.now new.now.place new.now.program.now }
    ensures { IfOk result (λ text. text.items ≡ program_table_of
        (profile_of surveyed.now old.now.program.now) (profile_of surveyed.now new.now.program.now)) }
{
    let (old, new) = (profile_of(surveyed, old), profile_of(surveyed, new));
    let columns = columns_of(heap, &old, &new)?;
    table_of(alloc, 3, columns.as_slice())
}
