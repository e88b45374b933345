//! A configuration of a study by its number, or by choices that only it has.

ghost use Rattle.std.specs.Prelude.{◌≡◌, ◌<◌, ◌∷◌, [], length, map, Some, IfErr, IfOk, string_bytes};
ghost use Rattle.tomex_find.specs.Find.{found_in};
ghost use Rattle.tomex_find.specs.RowName.{HaveNoRow, IsNoRow, choices_in, row_named};

use crate::finding::{first_unhad, found_in};
use std::alloc::{AllocError, Allocator, Global};
use tomex_study::Study;

/// A configuration of a study, as it is named.
#[derive(Clone, Copy)]
pub enum RowName<'a> {
    /// By its number.
    Number(usize),
    /// By choices that only it has, joined by commas, as in `alu=2,mul=1`.
    Choices(&'a str),
}

/// Why a name is that of no configuration.
#[derive(Drop)]
pub enum RowError {
    /// No row has this choice; it is the first such one. Carries it as written.
    NoSuchChoice(String),
    /// No row has this number, or all choices.
    NoSuchRow,
    /// This many rows have all choices.
    SeveralRows(usize),
    /// Out of memory.
    Memory,
}

impl From<AllocError> for RowError {
    ghost use Rattle.std.specs.Prelude.{◌≡◌};
    ghost use Rattle.tomex_find.specs.declared.row_name.RowError.TheVariants as errors;

    ghost from_gives = { λ _ error. error ≡ errors.Memory };

    fn from(_error: AllocError) -> RowError {
        RowError::Memory
    }
}

/// The parts of a name, between its commas.
fn parts_of<'w>(heap: Global, word: &'w str) -> Result<Vec<&'w str>, AllocError>
    ensures { IfOk result (λ parts. map (λ part. part.now) parts.items ≡ choices_in word.now) }
{
    word.split(',').collect(heap)
}

/// Copies of words.
fn copies_of(heap: Global, words: &[&str]) -> Result<Vec<String>, AllocError>
    ensures { IfOk result (λ copies. map string_bytes copies.items ≡ map (λ word. word.now) words.now) }
{
    let mut copies = Vec::new(heap);
    for word in words {
        copies.push(String::from_str(heap, *word)?)?;
    }
    Ok(copies)
}

/// The choices of a name, each a word of its own.
fn choices_in(heap: Global, word: &str) -> Result<Vec<String>, AllocError>
    ensures { IfOk result (λ words. map string_bytes words.items ≡ choices_in word.now) }
{
    let parts = parts_of(heap, word)?;
    copies_of(heap, parts.as_slice())
}

/// The only row that has all choices.
fn row_with<A: Allocator>(
    heap: Global,
    study: &Study<A>,
    words: &[String],
) -> Result<usize, RowError>
    ensures row { IfOk result (λ row. found_in study.now (map string_bytes words.now) ≡ row ∷ []) }
    ensures inside { IfOk result (λ row. row < length study.now.rows) }
    ensures refused { IfErr result (HaveNoRow study.now (map string_bytes words.now)) }
{
    if let Some(choice) = first_unhad(heap, study, words)? {
        return Err(RowError::NoSuchChoice(choice));
    }
    let rows = found_in(heap, study, words)?;
    match rows.as_slice() {
        [] => Err(RowError::NoSuchRow),
        [row] => Ok(*row),
        several => Err(RowError::SeveralRows(several.len())),
    }
}

/// The number of the row that a name is of. Small values are allocated in `heap`.
///
/// Choices are written as `find_table` takes them; nothing is trimmed, and an empty part is a choice that no row has.
pub fn row_named<A: Allocator>(
    heap: Global,
    study: &Study<A>,
    name: RowName<'_>,
) -> Result<usize, RowError>
    ensures row { IfOk result (λ row. row_named study.now name.entry ≡ Some row) }
    ensures inside { IfOk result (λ row. row < length study.now.rows) }
    ensures refused { IfErr result (IsNoRow study.now name.entry) }
{
    match name {
        RowName::Number(row) if row < study.rows().len() => Ok(row),
        RowName::Number(_) => Err(RowError::NoSuchRow),
        RowName::Choices(word) => {
            let words = choices_in(heap, word)?;
            row_with(heap, study, words.as_slice())
        }
    }
}
