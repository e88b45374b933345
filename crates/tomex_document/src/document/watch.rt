//! The ranges of memory that a program's entry asks reports to show.

ghost use Rattle.std.specs.Prelude.{◌≡◌, ◌≤◌, length, IfOk, true, All};
ghost use Rattle.std.specs.List.{list_all};
ghost use Rattle.toml.specs.Data.{as_array};
ghost use Rattle.toml.specs.View.{view, table_view, items_view};
ghost use Rattle.tomex_image.specs.Window.{IsWindow};
ghost use Rattle.tomex_values.specs.Readings.{Gives};
ghost use Rattle.tomex_values.specs.Lists.{all_items, each};
ghost use Rattle.tomex_study.specs.Watch.{IsWatch, is_watchable, watched_bytes};
ghost use Rattle.tomex_document.specs.Watch.{is_integers, range_from, range_of, few_bytes};
ghost use Rattle.tomex_document.specs.Watch.{ranges_of, watch_from, watch_at};

use std::alloc::Allocator;
use tomex_image::Window;
use tomex_study::{WatchRange, watched_bytes};
use tomex_values::{
    DocumentError, Key, Limits, Place, are_integers, items_count, number_of, value_at,
};
use toml::{Table, Value};

fn is_integers(value: &Value) -> bool
    ensures { result ≡ is_integers (view value.now) }
{
    match value.as_array() {
        None => false,
        Some(values) => are_integers(values),
    }
}

fn each_is_integers(values: &[Value]) -> bool
    ensures { result ≡ list_all (λ v. is_integers (view v)) values.now }
{
    values.iter().all(|value| is_integers(value))
}

fn are_lists(values: &[Value]) -> bool
    ensures { result ≡ all_items is_integers (items_view values.now) }
{
    each_is_integers(values)
}

/// An address and a length inside the window.
#[tactic(auto, using(crate::proofs::Pairs::pair_short, crate::proofs::Pairs::pair_long))]
fn range_of(value: &Value, place: Place, window: Window) -> Result<WatchRange, DocumentError>
    ensures read { result ≡ range_of place window (view value.now) }
    ensures inside { IfOk result (λ r. is_watchable window r ≡ true) }
{
    let out = Err(DocumentError::Range(place, Key::Watch));
    let Some(values) = value.as_array() else {
        return out;
    };
    let base = window.base();
    let size = window.size();
    match values.as_slice() {
        [address, length] => {
            let limits = Limits::between(base, base + (size - 1));
            let address = number_of(address, place, Key::Watch, limits)?;
            let limits = Limits::between(1, size - (address - base));
            let length = number_of(length, place, Key::Watch, limits)?;
            Ok(WatchRange { address, length })
        }
        _ => out,
    }
}

fn each_range<A: Allocator>(
    alloc: A,
    values: &[Value],
    place: Place,
    window: Window,
) -> Result<Vec<WatchRange, A>, DocumentError>
    ensures read { Gives
        (λ v. v.items) result (each (range_of place window) (items_view values.now)) }
    ensures count { IfOk result (λ v. length v.items ≤ length values.now) }
    ensures inside { IfOk result (λ v. All (λ r. is_watchable window r ≡ true) v.items) }
{
    let mut ranges = Vec::new(alloc);
    for value in values {
        ranges.push(range_of(value, place, window)?)?;
    }
    Ok(ranges)
}

fn few_bytes<A: Allocator>(
    ranges: Vec<WatchRange, A>,
    place: Place,
) -> Result<Vec<WatchRange, A>, DocumentError>
    requires { length ranges.items ≤ 8 }
    ensures read { Gives (λ v. v.items) result (few_bytes place ranges.items) }
    ensures few { IfOk result (λ v. watched_bytes v.items ≤ 4096) }
    ensures same { IfOk result (λ v. v.items ≡ ranges.items) }
{
    if watched_bytes(&ranges) <= 4096 {
        Ok(ranges)
    } else {
        Err(DocumentError::Range(place, Key::Watch))
    }
}

fn ranges_of<A: Allocator>(
    alloc: A,
    values: &[Value],
    place: Place,
    window: Window,
) -> Result<Vec<WatchRange, A>, DocumentError>
    ensures read { Gives (λ v. v.items) result (ranges_of place window (items_view values.now)) }
    ensures lawful { IfOk result (λ v. IsWatch window v.items) }
{
    if items_count(values) <= 8 {
        let ranges = each_range(alloc, values, place, window)?;
        few_bytes(ranges, place)
    } else {
        Err(DocumentError::Range(place, Key::Watch))
    }
}

fn watch_from<A: Allocator>(
    alloc: A,
    value: &Value,
    place: Place,
    window: Window,
) -> Result<Vec<WatchRange, A>, DocumentError>
    ensures read { Gives
        (λ v. v.items) result (watch_from place window (as_array (view value.now))) }
    ensures lawful { IfOk result (λ v. IsWatch window v.items) }
{
    let Some(values) = value.as_array() else {
        return Err(DocumentError::Kind(place, Key::Watch));
    };
    if are_lists(values) {
        ranges_of(alloc, values, place, window)
    } else {
        Err(DocumentError::Kind(place, Key::Watch))
    }
}

/// The watched ranges of a program in that window.
#[tactic(auto, unfolding(crate::specs::Watch::watch_at))]
pub fn watch_at<A: Allocator>(
    alloc: A,
    table: &Table,
    place: Place,
    window: Window,
) -> Result<Vec<WatchRange, A>, DocumentError>
    ensures read { Gives (λ v. v.items) result (watch_at place window (table_view table.now)) }
    ensures lawful { IfOk result (λ v. IsWatch window v.items) }
{
    match value_at(table, Key::Watch) {
        None => Ok(Vec::new(alloc)),
        Some(value) => watch_from(alloc, value, place, window),
    }
}
