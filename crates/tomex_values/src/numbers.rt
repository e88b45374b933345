//! Integers of the document, and their limits.

ghost use Rattle.std.specs.Prelude.{◌≡◌, ◌<◌, IfOk, true};
ghost use Rattle.toml.specs.View.{view, table_view};
ghost use Rattle.tomex_values.specs.Numbers.{between, words_between, is_within, number_from, number_of, number_at};

use crate::error::DocumentError;
use crate::place::{Key, Place};
use crate::table::value_at;
use toml::{Table, Value};

/// The multiples of `step` from `low` to `high`.
#[derive(Clone, Copy, PartialEq, Eq)]
pub struct Limits {
    pub low: u32,
    pub high: u32,
    pub step: u32,
}

impl Limits {
    /// The numbers from `low` to `high`, both included.
    pub fn between(low: u32, high: u32) -> Limits
        ensures { result ≡ between low high }
    {
        Limits { low, high, step: 1 }
    }

    /// The multiples of 4, the bytes of a word.
    pub fn words_between(low: u32, high: u32) -> Limits
        ensures { result ≡ words_between low high }
    {
        Limits { low, high, step: 4 }
    }

    fn contain(self, number: u32) -> bool
        requires { 0 < self.step }
        ensures { result ≡ is_within self number }
    {
        self.low <= number && number <= self.high && number % self.step == 0
    }
}

fn number_from(number: u32, place: Place, key: Key, limits: Limits) -> Result<u32, DocumentError>
    requires { 0 < limits.step }
    ensures read { result ≡ number_from place key limits number }
    ensures within { IfOk result (λ n. is_within limits n ≡ true) }
{
    if limits.contain(number) {
        Ok(number)
    } else {
        Err(DocumentError::Range(place, key))
    }
}

/// An integer within the limits.
pub fn number_of(
    value: &Value,
    place: Place,
    key: Key,
    limits: Limits,
) -> Result<u32, DocumentError>
    requires { 0 < limits.step }
    ensures read { result ≡ number_of place key limits (view value.now) }
    ensures within { IfOk result (λ n. is_within limits n ≡ true) }
{
    match value.as_integer() {
        None => Err(DocumentError::Kind(place, key)),
        Some(number) => {
            if number >= i64::from(limits.low) && number <= i64::from(limits.high) {
                number_from(number as u32, place, key, limits)
            } else {
                Err(DocumentError::Range(place, key))
            }
        }
    }
}

/// The integer at a key. The default is tested as if it were given.
#[tactic(auto, unfolding(crate::specs::Numbers::number_at))]
pub fn number_at(
    table: &Table,
    place: Place,
    key: Key,
    limits: Limits,
    default: u32,
) -> Result<u32, DocumentError>
    requires { 0 < limits.step }
    ensures read { result ≡ number_at place key limits default (table_view table.now) }
    ensures within { IfOk result (λ n. is_within limits n ≡ true) }
{
    match value_at(table, key) {
        None => number_from(default, place, key, limits),
        Some(value) => number_of(value, place, key, limits),
    }
}
