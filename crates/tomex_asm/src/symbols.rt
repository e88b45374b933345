//! The symbols of a file.

ghost use Rattle.std.specs.Prelude.{◌≡◌, ◌++◌, ◌<◌, ◌∷◌, ℕ, List, OnOk, map, true, false};
ghost use Rattle.tomex_asm_numbers.specs.Indexed.{definition_of};
ghost use Rattle.tomex_asm_words.specs.Words.{Remark};
ghost use Rattle.tomex_asm.specs.File.{after_name, attributes_of, chosen, entries, entry, entry_from, is_chosen};
ghost use Rattle.tomex_asm.specs.File.{is_local, is_symbol, names, names_end, section_number, symbol};
ghost use Rattle.tomex_asm.specs.File.{binding_number, kind_number};
ghost use Rattle.tomex_asm.specs.Named.{attributes_at, symbol_of};

use crate::attributes::{Attributes, attributes_at};
use std::alloc::{AllocError, Allocator};
use std::collections::BTreeMap;
use tomex_asm_numbers::Definition;
use tomex_asm_text::{Binding, Kind, Section};
use tomex_asm_words::Frame;
use tomex_elf::{push_halves, push_words};

/// A label that the file names.
#[derive(Clone, Copy)]
pub struct Symbol<'a> {
    pub name: &'a [u8],
    pub address: u32,
    pub section: u16,
    pub attributes: Attributes,
}

fn is_symbol(definition: Definition<'_>) -> bool
    ensures { result ≡ is_symbol (definition_of definition.entry) }
{
    let word = definition.word;
    definition.is_label
        && !word.first().copied().unwrap_or(0).is_ascii_digit()
        && !word.starts_with(b".L")
}

fn is_local(attributes: Attributes) -> bool
    ensures { result ≡ is_local attributes }
{
    attributes.binding.is_none()
}

fn section_number(section: Option<Section>) -> u16
    ensures { result ≡ section_number section }
{
    match section {
        None => 0,
        Some(Section::Text) => 1,
        Some(Section::Data) => 2,
    }
}

fn binding_number(binding: Option<Binding>) -> u8
    ensures value { result ≡ binding_number binding }
    ensures small { result < 3 }
{
    match binding {
        None => 0,
        Some(Binding::Global) => 1,
        Some(Binding::Weak) => 2,
    }
}

fn kind_number(kind: Option<Kind>) -> u8
    ensures value { result ≡ kind_number kind }
    ensures small { result < 3 }
{
    match kind {
        None => 0,
        Some(Kind::Object) => 1,
        Some(Kind::Function) => 2,
    }
}

/// Appends local symbols if the flag is set, else the others.
pub(crate) fn push_symbols<'a, A: Allocator + Clone>(
    symbols: &mut Vec<Symbol<'a>, A>,
    locals: bool,
    frame: Frame,
    index: &BTreeMap<&'a [u8], Attributes, A>,
    definitions: &[Definition<'a>],
) -> Result<(), AllocError>
    ensures { OnOk result ((remarks : List Remark)
        → ((w : List ℕ) → attributes_at index.now w ≡ attributes_of w remarks)
        → map symbol_of symbols.new.items
        ≡ map symbol_of symbols.old.items ++ chosen locals frame remarks (map definition_of definitions.now)) }
{
    for definition in definitions {
        let attributes = attributes_at(index, definition.word);
        if is_symbol(*definition) && is_local(attributes) == locals {
            symbols.push(Symbol {
                name: definition.word,
                address: frame.word(definition.number),
                section: section_number(definition.number.section),
                attributes,
            })?;
        }
    }
    Ok(())
}

/// Where the next name begins.
fn after_name(name: u32, symbol: Symbol<'_>) -> u32
    ensures { result ≡ after_name name (symbol_of symbol.entry) }
{
    ((u64::from(name) + symbol.name.len() as u64 + 1) % (1 << 32)) as u32
}

/// Appends the entry of a symbol.
fn push_entry<'a, A: Allocator>(
    file: &mut Vec<u8, A>,
    name: u32,
    symbol: Symbol<'a>,
) -> Result<(), AllocError>
    ensures { OnOk result (file.new.items ≡ file.old.items ++ entry name (symbol_of symbol.entry)) }
{
    let Attributes {
        binding,
        kind,
        size,
    } = symbol.attributes;
    let info = 16 * binding_number(binding) + kind_number(kind);
    push_words(file, [name, symbol.address, size].as_slice())?;
    file.extend_from_slice([info, 0].as_slice())?;
    push_halves(file, [symbol.section].as_slice())
}

/// Appends the entries of symbols.
pub(crate) fn push_entries<'a, A: Allocator>(
    file: &mut Vec<u8, A>,
    symbols: &[Symbol<'a>],
) -> Result<(), AllocError>
    ensures { OnOk result (file.new.items ≡ file.old.items ++ entries 1 (map symbol_of symbols.now)) }
{
    let mut name = 1;
    for symbol in symbols {
        push_entry(file, name, *symbol)?;
        name = after_name(name, *symbol);
    }
    Ok(())
}

/// Where the names of symbols end.
pub(crate) fn names_end(symbols: &[Symbol<'_>]) -> u32
    ensures { result ≡ names_end 1 (map symbol_of symbols.now) }
{
    let mut name = 1;
    for symbol in symbols {
        name = after_name(name, *symbol);
    }
    name
}

/// Appends the names of symbols, each with a zero.
pub(crate) fn push_names<'a, A: Allocator>(
    file: &mut Vec<u8, A>,
    symbols: &[Symbol<'a>],
) -> Result<(), AllocError>
    ensures { OnOk result (file.new.items ≡ file.old.items ++ names (map symbol_of symbols.now)) }
{
    for symbol in symbols {
        file.extend_from_slice(symbol.name)?;
        file.push(0)?;
    }
    Ok(())
}

/// Where the program begins.
pub(crate) fn entry_of(frame: Frame, definitions: &[Definition<'_>]) -> u32
    ensures { result ≡ entry_from frame (map definition_of definitions.now) }
{
    for definition in definitions {
        if definition.is_label && definition.word == b"_start".as_slice() {
            return frame.word(definition.number);
        }
    }
    frame.base
}
