//! What the words of a text stand for.

ghost use Rattle.std.specs.Prelude.{◌≡◌, ℕ, List, ◌++◌, ◌∷◌, [], IfOk, OnOk, if◌then◌else◌};
ghost use Rattle.tomex_asm_numbers.specs.Table.{numbers_of};
ghost use Rattle.tomex_asm_numbers.specs.Indexed.{definition_of, definitions_in, IsIndexed, numbers_in};
ghost use Rattle.std.specs.Str.{bytes_eq};

use crate::number::Number;
use std::alloc::{AllocError, Allocator};
use std::collections::BTreeMap;

/// A word, and the number that it stands for from here on.
#[derive(Clone, Copy)]
pub struct Definition<'a> {
    pub word: &'a [u8],
    pub number: Number,
    /// A label, and not a name of `.equ`.
    pub is_label: bool,
}

/// Definitions in the order of the text, and an index of them by word.
#[derive(Drop)]
pub struct Table<'a, A: Allocator + Clone> {
    pub definitions: Vec<Definition<'a>, A>,
    pub numbers: BTreeMap<&'a [u8], Vec<Number, A>, A>,
}

/// Appends a number to those of a word.
fn add<'a, A: Allocator + Clone>(
    index: &mut BTreeMap<&'a [u8], Vec<Number, A>, A>,
    alloc: A,
    word: &'a [u8],
    number: Number,
) -> Result<(), AllocError>
    ensures { OnOk result ((q : List ℕ) → numbers_in index.new q
        ≡ (if bytes_eq word.now q then numbers_in index.old q ++ number ∷ [] else numbers_in index.old q)) }
{
    let mut numbers = index.remove(&word).unwrap_or(Vec::new(alloc));
    numbers.push(number)?;
    index.insert(word, numbers)?;
    Ok(())
}

impl<'a, A: Allocator + Clone> Table<'a, A> {
    /// The table of no definitions.
    pub fn new(alloc: A) -> Result<Table<'a, A>, AllocError>
        ensures none { IfOk result (λ t. definitions_in t ≡ []) }
        ensures indexed { IfOk result (λ t. IsIndexed t) }
    {
        Ok(Table {
            definitions: Vec::new(alloc.clone()?),
            numbers: BTreeMap::new(alloc),
        })
    }

    /// The numbers of a word, in the order of the text.
    pub fn numbers_of(&self, word: &'a [u8]) -> &[Number]
        requires { IsIndexed self.now }
        ensures { result.now ≡ numbers_of word.now (definitions_in self.now) }
    {
        match self.numbers.get(&word) {
            Some(numbers) => numbers.as_slice(),
            None => &[],
        }
    }

    /// Appends a definition. After an error the index may differ from the definitions.
    pub fn define(&mut self, alloc: A, definition: Definition<'a>) -> Result<(), AllocError>
        requires { IsIndexed self.old }
        ensures more { OnOk result (definitions_in self.new
            ≡ definitions_in self.old ++ definition_of definition.entry ∷ []) }
        ensures indexed { OnOk result (IsIndexed self.new) }
    {
        add(&mut self.numbers, alloc, definition.word, definition.number)?;
        self.definitions.push(definition)?;
        Ok(())
    }
}
