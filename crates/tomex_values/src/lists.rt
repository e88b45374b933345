//! Arrays of the document: of integers, and of tables.

ghost use Rattle.std.specs.Prelude.{◌≡◌, ◌≢◌, ◌≤◌, option_map, length, true, IfOk};
ghost use Rattle.std.specs.List.{list_all};
ghost use Rattle.toml.specs.Data.{as_array};
ghost use Rattle.toml.specs.View.{view, table_view, items_view};
ghost use Rattle.tomex_values.specs.Readings.{Gives, Reads};
ghost use Rattle.tomex_values.specs.Numbers.{between, number_of};
ghost use Rattle.tomex_values.specs.Lists.{items_count, all_items, is_integer, is_table, each, some_counts};
ghost use Rattle.tomex_values.specs.Lists.{counts_from, counts_at, tables_from, tables_at};

use crate::error::DocumentError;
use crate::numbers::{Limits, number_of};
use crate::place::{Key, Place};
use crate::table::value_at;
use std::alloc::Allocator;
use toml::{Table, Value};

/// The number of values.
pub fn items_count(values: &[Value]) -> usize
    ensures count { result ≡ items_count (items_view values.now) }
    ensures length { result ≡ length values.now }
{
    values.len()
}

fn each_is_integer(values: &[Value]) -> bool
    ensures { result ≡ list_all (λ v. is_integer (view v)) values.now }
{
    values.iter().all(|value| value.is_integer())
}

/// True if all values are integers.
pub fn are_integers(values: &[Value]) -> bool
    ensures { result ≡ all_items is_integer (items_view values.now) }
{
    each_is_integer(values)
}

fn each_is_table(values: &[Value]) -> bool
    ensures { result ≡ list_all (λ v. is_table (view v)) values.now }
{
    values.iter().all(|value| value.is_table())
}

fn are_tables(values: &[Value]) -> bool
    ensures { result ≡ all_items is_table (items_view values.now) }
{
    each_is_table(values)
}

fn counts_of<A: Allocator>(
    alloc: A,
    values: &[Value],
    place: Place,
    key: Key,
    most: u8,
) -> Result<Vec<u8, A>, DocumentError>
    ensures { Gives (λ v. v.items) result (each (number_of place key (between 1 most)) (items_view values.now)) }
{
    let mut counts = Vec::new(alloc);
    for value in values {
        let count = number_of(value, place, key, Limits::between(1, u32::from(most)))?;
        counts.push(count as u8)?;
    }
    Ok(counts)
}

fn some_counts<A: Allocator>(
    alloc: A,
    values: &[Value],
    place: Place,
    key: Key,
    most: u8,
) -> Result<Vec<u8, A>, DocumentError>
    ensures { Gives (λ v. v.items) result (some_counts place key most (items_view values.now)) }
{
    if values.is_empty() {
        return Err(DocumentError::Range(place, key));
    }
    counts_of(alloc, values, place, key, most)
}

fn counts_from<A: Allocator>(
    alloc: A,
    value: &Value,
    place: Place,
    key: Key,
    most: u8,
) -> Result<Vec<u8, A>, DocumentError>
    ensures { Gives (λ v. v.items) result (counts_from place key most (as_array (view value.now))) }
{
    let Some(values) = value.as_array() else {
        return Err(DocumentError::Kind(place, key));
    };
    if !are_integers(values) {
        return Err(DocumentError::Kind(place, key));
    }
    some_counts(alloc, values, place, key, most)
}

/// The numbers of stations or buses, or the widths, at a key, from 1 to `most`; a single 1 if the
/// key is absent.
#[tactic(auto, unfolding(crate::specs::Lists::counts_at))]
pub fn counts_at<A: Allocator>(
    alloc: A,
    table: &Table,
    place: Place,
    key: Key,
    most: u8,
) -> Result<Vec<u8, A>, DocumentError>
    ensures { Gives (λ v. v.items) result (counts_at place key most (table_view table.now)) }
{
    match value_at(table, key) {
        None => Ok(vec![in alloc; 1]?),
        Some(value) => counts_from(alloc, value, place, key, most),
    }
}

/// The tables of an array that has at least one, and nothing else.
pub fn tables_from<'a>(
    value: &'a Value,
    place: Place,
    key: Key,
) -> Result<&'a [Value], DocumentError>
    ensures { Reads
        (λ s. items_view s.now) result (tables_from place key (as_array (view value.now))) }
{
    let Some(values) = value.as_array() else {
        return Err(DocumentError::Kind(place, key));
    };
    if !are_tables(values) {
        return Err(DocumentError::Kind(place, key));
    }
    if items_count(values) == 0 {
        Err(DocumentError::Range(place, key))
    } else {
        Ok(values)
    }
}

/// The array of tables at a key, if the key is present.
#[tactic(auto, unfolding(crate::specs::Lists::tables_at))]
pub fn tables_at<'a>(
    table: &'a Table,
    place: Place,
    key: Key,
) -> Result<Option<&'a [Value]>, DocumentError>
    ensures { Reads (λ o. option_map
        (λ s. items_view s.now) o) result (tables_at place key (table_view table.now)) }
{
    match value_at(table, key) {
        None => Ok(None),
        Some(value) => Ok(Some(tables_from(value, place, key)?)),
    }
}
