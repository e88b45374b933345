//! The programs of the document.

ghost use Rattle.std.specs.Prelude.{◌≡◌, ◌≢◌, ◌+◌, ◌≤◌, [], length, true, IfOk, string_bytes};
ghost use Rattle.std.specs.List.{list_all, list_any};
ghost use Rattle.std.specs.Str.{bytes_eq};
ghost use Rattle.toml.specs.View.{table_view, items_view};
ghost use Rattle.tomex_values.specs.Readings.{Gives, Reads};
ghost use Rattle.tomex_document.specs.Program.{is_name, is_name_byte, is_taken, size_most, text_at, name_at};
ghost use Rattle.tomex_document.specs.Program.{file_at, window_at, program_of, programs_of, program_tables};

use super::entry::Entry;
use super::watch::watch_at;
use std::alloc::Allocator;
use tomex_image::Window;
use tomex_values::{
    DocumentError, Key, Limits, Place, has_key, items_count, known_keys, number_at, tables_from,
    value_at,
};
use toml::{Table, Value};

fn is_name_byte(byte: u8) -> bool
    ensures { result ≡ is_name_byte byte }
{
    matches!(byte, b'a'..=b'z' | b'0'..=b'9' | b'_' | b'-')
}

fn are_name_bytes(bytes: &[u8]) -> bool
    ensures { result ≡ list_all is_name_byte bytes.now }
{
    bytes.iter().all(|byte| is_name_byte(*byte))
}

fn is_name(text: &str) -> bool
    ensures { result ≡ is_name text.now }
{
    1 <= text.len() && text.len() <= 32 && are_name_bytes(text.as_bytes())
}

fn is_taken<A: Allocator>(earlier: &[Entry<A>], text: &str) -> bool
    ensures { result ≡ is_taken earlier.now text.now }
{
    earlier.iter().any(|entry| entry.name() == text)
}

#[tactic(auto, unfolding(crate::specs::Program::text_at))]
fn text_at<'a>(table: &'a Table, place: Place, key: Key) -> Result<&'a str, DocumentError>
    ensures { Reads (λ s. s.now) result (text_at place key (table_view table.now)) }
{
    match value_at(table, key) {
        None => Err(DocumentError::MissingKey(place, key)),
        Some(value) => match value.as_str() {
            None => Err(DocumentError::Kind(place, key)),
            Some(text) => Ok(text),
        },
    }
}

#[tactic(auto, unfolding(crate::specs::Program::name_at))]
fn name_at<A: Allocator + Clone>(
    alloc: &A,
    table: &Table,
    place: Place,
    earlier: &[Entry<A>],
) -> Result<String<A>, DocumentError>
    ensures read { Gives string_bytes result (name_at place earlier.now (table_view table.now)) }
    ensures lawful { IfOk result (λ s. is_name (string_bytes s) ≡ true) }
{
    let alloc = alloc.clone()?;
    let name = text_at(table, place, Key::Name)?;
    if is_name(name) && !is_taken(earlier, name) {
        Ok(String::from_str(alloc, name)?)
    } else {
        Err(DocumentError::Range(place, Key::Name))
    }
}

#[tactic(auto, unfolding(crate::specs::Program::file_at))]
fn file_at<A: Allocator + Clone>(
    alloc: &A,
    table: &Table,
    place: Place,
) -> Result<String<A>, DocumentError>
    ensures read { Gives string_bytes result (file_at place (table_view table.now)) }
    ensures named { IfOk result (λ s. string_bytes s ≢ []) }
{
    let alloc = alloc.clone()?;
    let file = text_at(table, place, Key::File)?;
    if file.is_empty() {
        Err(DocumentError::Range(place, Key::File))
    } else {
        Ok(String::from_str(alloc, file)?)
    }
}

/// The greatest size of a window from `base` on.
fn size_most(base: u32) -> u32
    ensures most { result ≡ size_most base }
    ensures room { base + result ≤ 4294967296 }
    ensures limit { result ≤ 1048576 }
{
    let room = (1u64 << 32) - u64::from(base);
    if room < 1_048_576 {
        room as u32
    } else {
        1_048_576
    }
}

#[tactic(auto, unfolding(crate::specs::Program::window_at))]
fn window_at(table: &Table, place: Place) -> Result<Window, DocumentError>
    ensures { Reads (λ w. w) result (window_at place (table_view table.now)) }
{
    let base = number_at(
        table,
        place,
        Key::Base,
        Limits::words_between(0, 4_294_967_292),
        0,
    )?;
    let limits = Limits::words_between(4, size_most(base));
    let size = number_at(table, place, Key::Size, limits, 65_536)?;
    match Window::new(base, size) {
        Some(window) => Ok(window),
        None => unreachable!(),
    }
}

#[tactic(auto, unfolding(crate::specs::Program::program_of))]
fn program_of<A: Allocator + Clone>(
    alloc: &A,
    table: &Table,
    place: Place,
    earlier: &[Entry<A>],
) -> Result<Entry<A>, DocumentError>
    ensures { Gives (λ e. e) result (program_of place earlier.now (table_view table.now)) }
{
    let alloc = alloc.clone()?;
    let keys = [
        Key::Name,
        Key::File,
        Key::Base,
        Key::Size,
        Key::Limit,
        Key::Watch,
        Key::Weight,
    ];
    known_keys(table, place, keys.as_slice())?;
    let shared = &alloc;
    let name = name_at(shared, table, place, earlier)?;
    let file = file_at(shared, table, place)?;
    let window = window_at(table, place)?;
    let limit = number_at(
        table,
        place,
        Key::Limit,
        Limits::between(1, 262_144),
        262_144,
    )?;
    let watch = watch_at(alloc, table, place, window)?;
    let weight = number_at(table, place, Key::Weight, Limits::between(1, 1000), 1)?;
    let weighed = has_key(table, Key::Weight);
    Ok(Entry::new(name, file, window, limit, watch, weight, weighed))
}

/// The programs of these tables, of which there are at most 8.
pub fn programs_of<A: Allocator + Clone>(
    alloc: A,
    values: &[Value],
) -> Result<Vec<Entry<A>, A>, DocumentError>
    requires { length values.now ≤ 8 }
    ensures { Gives (λ v. v.items) result (programs_of 1 [] (items_view values.now)) }
{
    let mut entries = Vec::new(alloc.clone()?);
    let mut number = 1u8;
    for value in values {
        let Some(table) = value.as_table() else {
            return Err(DocumentError::Kind(Place::Top, Key::Program));
        };
        let entry = program_of(&alloc, table, Place::Program(number), entries.as_slice())?;
        entries.push(entry)?;
        number += 1;
    }
    Ok(entries)
}

/// The tables of the programs: 1 to 8.
#[tactic(auto, unfolding(crate::specs::Program::program_tables))]
pub fn program_tables(table: &Table) -> Result<&[Value], DocumentError>
    ensures read { Reads (λ s. items_view s.now) result (program_tables (table_view table.now)) }
    ensures few { IfOk result (λ s. length s.now ≤ 8) }
{
    let Some(value) = value_at(table, Key::Program) else {
        return Err(DocumentError::MissingKey(Place::Top, Key::Program));
    };
    let values = tables_from(value, Place::Top, Key::Program)?;
    if items_count(values) <= 8 {
        Ok(values)
    } else {
        Err(DocumentError::Range(Place::Top, Key::Program))
    }
}
