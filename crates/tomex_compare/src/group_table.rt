//! The table of groups.

ghost use Rattle.std.specs.Prelude.{◌≡◌, ◌-◌, ◌/◌, count_by, length, map, slice_get, IfOk, Option, string_bytes};
ghost use Rattle.std.specs.Fmt.{decimal};
ghost use Rattle.tomex_compare.specs.GroupTable.{all_headings, best, group_table_of, heading_column, median};
ghost use Rattle.tomex_compare.specs.GroupTable.{ratio_text, row_text, takes_as_many, takes_fewer, takes_more};
ghost use Rattle.tomex_compare.specs.GroupTable.{name_under, text_under, worst};

use crate::groups::Group;
use crate::pairs::Pair;
use std::alloc::{AllocError, Allocator, Global};
use tomex_layout::{Column, push_percent, table_of};

/// A column's heading: which property of a group it shows.
#[derive(Clone, Copy)]
pub enum Heading {
    Part,
    Value,
    /// How many rows it has.
    Rows,
    /// On how many of them the new program takes fewer cycles than the old one, as many, or more.
    Fewer,
    Same,
    More,
    /// The new program's cycles by the old one's: the least such ratio, the median, and the greatest.
    Best,
    BestRow,
    Median,
    Worst,
    WorstRow,
}

impl Heading {
    /// All headings, in the table's order.
    pub const ALL: [Heading; 11] = [
        Heading::Part,
        Heading::Value,
        Heading::Rows,
        Heading::Fewer,
        Heading::Same,
        Heading::More,
        Heading::Best,
        Heading::BestRow,
        Heading::Median,
        Heading::Worst,
        Heading::WorstRow,
    ];

    /// Its name.
    pub fn name(self) -> &'static str
        ensures { result.now ≡ name_under self }
    {
        match self {
            Heading::Part => "part",
            Heading::Value => "value",
            Heading::Rows => "rows",
            Heading::Fewer => "fewer",
            Heading::Same => "same",
            Heading::More => "more",
            Heading::Best => "best",
            Heading::BestRow => "best_row",
            Heading::Median => "median",
            Heading::Worst => "worst",
            Heading::WorstRow => "worst_row",
        }
    }
}

/// The number of rows on which the new build takes fewer cycles than the old one.
fn fewer(pairs: &[Pair]) -> usize
    ensures { result ≡ count_by takes_fewer pairs.now }
{
    pairs.iter().filter(|pair| pair.new < pair.old).count()
}

/// The number of rows on which it takes as many.
fn as_many(pairs: &[Pair]) -> usize
    ensures { result ≡ count_by takes_as_many pairs.now }
{
    pairs.iter().filter(|pair| pair.new == pair.old).count()
}

/// The number of rows on which it takes more.
fn more(pairs: &[Pair]) -> usize
    ensures { result ≡ count_by takes_more pairs.now }
{
    pairs.iter().filter(|pair| pair.old < pair.new).count()
}

fn count_text(heap: Global, count: usize) -> Result<String, AllocError>
    ensures { IfOk result (λ text. string_bytes text ≡ decimal count) }
{
    format!(in heap; "{count}")
}

/// The first of these pairs.
fn best(pairs: &[Pair]) -> Option<Pair>
    ensures { result ≡ best pairs.now }
{
    pairs.first().copied()
}

/// The last of these pairs.
fn worst(pairs: &[Pair]) -> Option<Pair>
    ensures { result ≡ worst pairs.now }
{
    pairs.last().copied()
}

/// The middle one of these pairs; of two the earlier.
fn median(pairs: &[Pair]) -> Option<Pair>
    ensures { result ≡ median pairs.now }
{
    pairs.get(pairs.len().saturating_sub(1) / 2).copied()
}

/// A pair's ratio, as a difference in percent.
fn ratio_text(heap: Global, pair: Option<Pair>) -> Result<String, AllocError>
    ensures { IfOk result (λ text. string_bytes text ≡ ratio_text pair) }
{
    let mut text = String::new(heap);
    match pair {
        Some(pair) => push_percent(&mut text, pair.old, pair.new)?,
        None => text.push_str("-")?,
    }
    Ok(text)
}

/// A pair's row.
fn row_text(heap: Global, pair: Option<Pair>) -> Result<String, AllocError>
    ensures { IfOk result (λ text. string_bytes text ≡ row_text pair) }
{
    match pair {
        Some(pair) => count_text(heap, pair.row),
        None => format!(in heap; "-"),
    }
}

/// The text under a heading in a group's line.
#[tactic(auto, unfolding(crate::specs::GroupTable::text_under))]
pub(crate) fn text_under(
    heap: Global,
    heading: Heading,
    group: &Group,
) -> Result<String, AllocError>
    ensures { IfOk result (λ text. string_bytes text ≡ text_under heading group.now) }
{
    let pairs = group.pairs.as_slice();
    match heading {
        Heading::Part => String::from_str(heap, group.part.as_str()),
        Heading::Value => String::from_str(heap, group.value.as_str()),
        Heading::Rows => count_text(heap, pairs.len()),
        Heading::Fewer => count_text(heap, fewer(pairs)),
        Heading::Same => count_text(heap, as_many(pairs)),
        Heading::More => count_text(heap, more(pairs)),
        Heading::Best => ratio_text(heap, best(pairs)),
        Heading::BestRow => row_text(heap, best(pairs)),
        Heading::Median => ratio_text(heap, median(pairs)),
        Heading::Worst => ratio_text(heap, worst(pairs)),
        Heading::WorstRow => row_text(heap, worst(pairs)),
    }
}

/// The column under a heading.
#[tactic(auto, unfolding(crate::specs::GroupTable::heading_column))]
fn heading_column(heap: Global, groups: &[Group], heading: Heading) -> Result<Column, AllocError>
    ensures { IfOk result (λ c. c ≡ heading_column groups.now heading) }
{
    let name = heading.name();
    let mut column = Column::new(heap, format!(in heap; "{name}")?);
    for group in groups {
        column.push(text_under(heap, heading, group)?)?;
    }
    Ok(column)
}

/// The columns of all headings.
fn columns_of(heap: Global, groups: &[Group]) -> Result<Vec<Column>, AllocError>
    ensures { IfOk result (λ v. v.items ≡ map (heading_column groups.now) all_headings) }
{
    let mut columns = Vec::new(heap);
    for heading in Heading::ALL {
        columns.push(heading_column(heap, groups, heading)?)?;
    }
    Ok(columns)
}

/// The table of groups: a line of names, and a line for each group.
#[tactic(auto, unfolding(crate::specs::GroupTable::group_table_of))]
pub fn group_table<A: Allocator>(
    alloc: A,
    heap: Global,
    groups: &[Group],
) -> Result<Vec<u8, A>, AllocError>
    ensures { IfOk result (λ text. text.items ≡ group_table_of groups.now) }
{
    let columns = columns_of(heap, groups)?;
    table_of(alloc, groups.len(), columns.as_slice())
}
