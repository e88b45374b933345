//! A table of the document: its members, and the test that their keys are known.

ghost use Rattle.std.specs.Prelude.{◌≡◌, option_map, not, string_bytes};
ghost use Rattle.std.specs.List.{list_any};
ghost use Rattle.std.specs.BTreeMap as map;
ghost use Rattle.toml.specs.Data.{get_member, no_members};
ghost use Rattle.toml.specs.View.{view, table_view};
ghost use Rattle.tomex_values.specs.Readings.{Reads};
ghost use Rattle.tomex_values.specs.Table.{has_key, value_at, is_one_of, has_other_key, known_keys, table_at};

use crate::error::DocumentError;
use crate::place::{Key, Place};
use toml::{Table, Value};

fn member<'a>(table: &'a Table, key: &str) -> Option<&'a Value>
    ensures { option_map (λ v. view v.now) result ≡ get_member key.now (table_view table.now) }
{
    table.get(key)
}

/// The value at a key.
pub fn value_at<'a>(table: &'a Table, key: Key) -> Option<&'a Value>
    ensures { option_map (λ v. view v.now) result ≡ value_at key (table_view table.now) }
{
    member(table, key.text())
}

/// True if there is a value at a key.
pub fn has_key(table: &Table, key: Key) -> bool
    ensures { result ≡ has_key key (table_view table.now) }
{
    value_at(table, key).is_some()
}

fn is_one_of(keys: &[Key], name: &str) -> bool
    ensures { result ≡ is_one_of keys.now name.now }
{
    keys.iter().any(|key| key.text() == name)
}

fn any_other(table: &Table, keys: &[Key]) -> bool
    ensures { result
        ≡ list_any (λ k. not (is_one_of keys.now (string_bytes k))) (map.keys table.now) }
{
    table.keys().any(|name| !is_one_of(keys, name.as_str()))
}

fn has_other_key(table: &Table, keys: &[Key]) -> bool
    ensures { result ≡ has_other_key keys.now (table_view table.now) }
{
    any_other(table, keys)
}

/// The first test of a place: that it has no keys but these.
#[tactic(auto, unfolding(crate::specs::Table::known_keys))]
pub fn known_keys(table: &Table, place: Place, keys: &[Key]) -> Result<(), DocumentError>
    ensures { result ≡ known_keys place keys.now (table_view table.now) }
{
    if has_other_key(table, keys) {
        Err(DocumentError::UnknownKey(place))
    } else {
        Ok(())
    }
}

/// The table at a key, or `empty` if the key is absent.
#[tactic(auto, unfolding(crate::specs::Table::table_at))]
pub fn table_at<'a>(
    table: &'a Table,
    place: Place,
    key: Key,
    empty: &'a Table,
) -> Result<&'a Table, DocumentError>
    requires { table_view empty.now ≡ no_members }
    ensures { Reads (λ t. table_view t.now) result (table_at place key (table_view table.now)) }
{
    match value_at(table, key) {
        None => Ok(empty),
        Some(value) => match value.as_table() {
            None => Err(DocumentError::Kind(place, key)),
            Some(found) => Ok(found),
        },
    }
}
