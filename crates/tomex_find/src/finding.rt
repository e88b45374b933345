//! From choices to the table of the rows that have them all.

ghost use Rattle.std.specs.Prelude.{◌≡◌, ◌<◌, length, map, option_map, All, IfErr, IfOk, string_bytes};
ghost use Rattle.tomex_find.specs.Find.{IsFound, IsNotFound, first_unhad, found_in};

use crate::found_table::rows_table;
use crate::named_values::{has_all, is_had};
use std::alloc::{AllocError, Allocator, Global};
use tomex_study::Study;

/// Why there is no table.
#[derive(Drop)]
pub enum FindError {
    /// No row has this choice; it is the first such one. Carries it as written.
    NoSuchChoice(String),
    /// No row has all choices.
    NoSuchRow,
    /// Out of memory.
    Memory,
}

impl From<AllocError> for FindError {
    ghost use Rattle.std.specs.Prelude.{◌≡◌};
    ghost use Rattle.tomex_find.specs.declared.finding.FindError.TheVariants as errors;

    ghost from_gives = { λ _ error. error ≡ errors.Memory };

    fn from(_error: AllocError) -> FindError {
        FindError::Memory
    }
}

/// The first choice that no row has.
pub(crate) fn first_unhad<A: Allocator>(
    heap: Global,
    study: &Study<A>,
    words: &[String],
) -> Result<Option<String>, AllocError>
    ensures { IfOk result
        (λ choice. option_map string_bytes choice ≡ first_unhad study.now (map string_bytes words.now)) }
{
    let mut text = String::new(heap);
    for word in words {
        if !is_had(&mut text, study, word.as_str())? {
            return Ok(Some(word.clone()?));
        }
    }
    Ok(None)
}

/// The rows that have all choices, by number.
#[tactic(auto, unfolding(crate::specs::Find::found_in))]
pub(crate) fn found_in<A: Allocator>(
    heap: Global,
    study: &Study<A>,
    words: &[String],
) -> Result<Vec<usize>, AllocError>
    ensures found { IfOk result (λ rows. rows.items ≡ found_in study.now (map string_bytes words.now)) }
    ensures within { IfOk result (λ rows. All (λ k. k < length study.now.rows) rows.items) }
{
    let mut text = String::new(heap);
    let mut rows = Vec::new(heap);
    for row in 0..study.rows().len() {
        if has_all(&mut text, study, row, words)? {
            rows.push(row)?;
        }
    }
    Ok(rows)
}

/// The rows of a study that have all choices, as a table. Choices are written as `NAME=NUMBER`, in the words of the
/// table's and the front report's columns. Small values are allocated in `heap`.
pub fn find_table<A: Allocator>(
    alloc: A,
    heap: Global,
    study: &Study<A>,
    words: &[String],
) -> Result<Vec<u8, A>, FindError>
    ensures found { IfOk result (λ text. IsFound study.now (map string_bytes words.now) text.items) }
    ensures refused { IfErr result (IsNotFound study.now (map string_bytes words.now)) }
{
    if let Some(choice) = first_unhad(heap, study, words)? {
        return Err(FindError::NoSuchChoice(choice));
    }
    let rows = found_in(heap, study, words)?;
    if rows.is_empty() {
        return Err(FindError::NoSuchRow);
    }
    Ok(rows_table(alloc, heap, study, rows.as_slice())?)
}
