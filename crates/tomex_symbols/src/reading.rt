//! The symbols of a file (System V ABI, "Symbol Table").
ghost use Rattle.std.specs.Prelude.{◌≡◌, ◌≤◌, ◌<◌, ◌+◌, ◌*◌, ◌/◌, ◌++◌, IfOk, OnOk, length, nat_lt, true};
ghost use Rattle.tomex_symbols.specs.Functions.{AreNumbered};
ghost use Rattle.tomex_symbols.specs.Sections.{has_sections};
ghost use Rattle.tomex_symbols.specs.Symbols.{binding_of, counted_at, is_function, is_in_code, is_internal, is_named};
ghost use Rattle.tomex_symbols.specs.Symbols.{has_symbols, kind_at, kind_of, symbols_from, symbols_of};

use crate::sections::{
    SYMBOL_SIZE, Section, Tables, find_tables, read_section, read_section_count,
};
use crate::symbol::{Binding, Kind, Symbol};
use std::alloc::{AllocError, Allocator};
use tomex_image::{read_half, read_word};

// Where the fields of an entry are, in bytes, by the standard's names. `st_name` is the first.
const ST_VALUE: usize = 4;

const ST_SIZE: usize = 8;

const ST_INFO: usize = 12;

const ST_SHNDX: usize = 14;

// Types, bindings and sections of symbols.
const STT_NOTYPE: u8 = 0;

const STT_FUNC: u8 = 2;

const STB_GLOBAL: u8 = 1;

const STB_WEAK: u8 = 2;

const SHN_UNDEF: u16 = 0;

/// True if the name lies in the table of names, and isn't empty.
fn is_named(bytes: &[u8], names: &Section, name: u32) -> bool
    requires { names.now.offset + names.now.size ≤ length bytes.now }
    ensures { result ≡ is_named bytes.now names.now name }
{
    name < names.size && bytes[names.offset as usize + name as usize] != 0
}

/// True if the name is an internal one of an assembler or a compiler.
fn is_internal(bytes: &[u8], names: &Section, name: u32) -> bool
    requires file { names.now.offset + names.now.size ≤ length bytes.now }
    requires name { name < names.now.size }
    ensures { result ≡ is_internal bytes.now names.now name }
{
    let place = names.offset as usize + name as usize;
    bytes[place] == b'$'
        || bytes[place] == b'.' && name + 1 < names.size && bytes[place + 1] == b'L'
}

fn is_function(info: u8, section: u16) -> bool
    ensures { result ≡ is_function info section }
{
    info % 16 == STT_FUNC && section != SHN_UNDEF
}

/// True if the symbol has no type, and a section of code.
fn is_in_code(bytes: &[u8], info: u8, section: u16) -> bool
    requires { has_sections bytes.now ≡ true }
    ensures { result ≡ is_in_code bytes.now info section }
{
    info % 16 == STT_NOTYPE
        && usize::from(section) < read_section_count(bytes)
        && read_section(bytes, usize::from(section)).has_code()
}

/// The kind of a symbol, if it counts.
fn kind_of(bytes: &[u8], names: &Section, name: u32, info: u8, section: u16) -> Option<Kind>
    requires sections { has_sections bytes.now ≡ true }
    requires file { names.now.offset + names.now.size ≤ length bytes.now }
    ensures { result ≡ kind_of bytes.now names.now name info section }
{
    if !is_named(bytes, names, name) {
        None
    } else if is_function(info, section) {
        Some(Kind::Function)
    } else if is_in_code(bytes, info, section) && !is_internal(bytes, names, name) {
        Some(Kind::Label)
    } else {
        None
    }
}

/// The kind of the symbol of the entry at `offset`, if it counts.
fn kind_at(bytes: &[u8], names: &Section, offset: usize) -> Option<Kind>
    requires sections { has_sections bytes.now ≡ true }
    requires file { names.now.offset + names.now.size ≤ length bytes.now }
    requires entry { offset + 16 ≤ length bytes.now }
    ensures { result ≡ kind_at bytes.now names.now offset }
{
    let name = read_word(bytes, offset);
    let section = read_half(bytes, offset + ST_SHNDX);
    kind_of(bytes, names, name, bytes[offset + ST_INFO], section)
}

fn binding_of(info: u8) -> Binding
    ensures { result ≡ binding_of info }
{
    match info / 16 {
        STB_GLOBAL => Binding::Global,
        STB_WEAK => Binding::Weak,
        _ => Binding::Other,
    }
}

/// Appends the symbol of the entry at `offset`, if it counts.
fn push_counted<A: Allocator>(
    symbols: &mut Vec<Symbol, A>,
    bytes: &[u8],
    names: &Section,
    number: u32,
    offset: usize,
) -> Result<(), AllocError>
    requires sections { has_sections bytes.now ≡ true }
    requires file { names.now.offset + names.now.size ≤ length bytes.now }
    requires entry { offset + 16 ≤ length bytes.now }
    ensures { OnOk result (symbols.new.items
        ≡ symbols.old.items ++ counted_at bytes.now names.now number offset) }
{
    if let Some(kind) = kind_at(bytes, names, offset) {
        symbols.push(Symbol {
            number,
            address: read_word(bytes, offset + ST_VALUE),
            size: read_word(bytes, offset + ST_SIZE),
            kind,
            binding: binding_of(bytes[offset + ST_INFO]),
            name: names.offset as usize + read_word(bytes, offset) as usize,
            names_end: names.offset as usize + names.size as usize,
        })?;
    }
    Ok(())
}

/// The symbols of a table that count, in its order.
fn symbols_in<A: Allocator>(
    alloc: A,
    bytes: &[u8],
    tables: &Tables,
) -> Result<Vec<Symbol, A>, AllocError>
    requires sections { has_sections bytes.now ≡ true }
    requires file { tables.now.symbols.offset + tables.now.symbols.size ≤ length bytes.now }
    requires names { tables.now.names.offset + tables.now.names.size ≤ length bytes.now }
    ensures value { IfOk result (λ v. v.items
        ≡ symbols_from bytes.now tables.now 0 (tables.now.symbols.size / 16)) }
    ensures numbered { IfOk result (λ v. AreNumbered v.items) }
{
    let first = tables.symbols.offset as usize;
    let mut symbols = Vec::new(alloc);
    for number in 0..tables.symbols.size / SYMBOL_SIZE {
        let offset = first + SYMBOL_SIZE as usize * number as usize;
        push_counted(&mut symbols, bytes, &tables.names, number, offset)?;
    }
    Ok(symbols)
}

/// The symbols of a file that name code, in the order of its symbol table. There are none in a flat
/// file, in one without a symbol table, and in one whose tables don't lie in it. The only error is
/// out of memory.
pub fn symbols<A: Allocator>(alloc: A, bytes: &[u8]) -> Result<Vec<Symbol, A>, AllocError>
    ensures value { IfOk result (λ v. v.items ≡ symbols_of bytes.now) }
    ensures numbered { IfOk result (λ v. AreNumbered v.items) }
{
    match find_tables(bytes) {
        None => Ok(Vec::new(alloc)),
        Some(tables) => symbols_in(alloc, bytes, &tables),
    }
}

/// True if an entry of a table counts.
fn has_counted(bytes: &[u8], tables: &Tables) -> bool
    requires sections { has_sections bytes.now ≡ true }
    requires file { tables.now.symbols.offset + tables.now.symbols.size ≤ length bytes.now }
    requires names { tables.now.names.offset + tables.now.names.size ≤ length bytes.now }
    ensures { result
        ≡ nat_lt 0 (length (symbols_from bytes.now tables.now 0 (tables.now.symbols.size / 16))) }
{
    let first = tables.symbols.offset as usize;
    for number in 0..tables.symbols.size / SYMBOL_SIZE {
        let offset = first + SYMBOL_SIZE as usize * number as usize;
        if kind_at(bytes, &tables.names, offset).is_some() {
            return true;
        }
    }
    false
}

/// True if a file has symbols that name code. It takes no memory.
pub fn has_symbols(bytes: &[u8]) -> bool
    ensures { result ≡ has_symbols bytes.now }
{
    match find_tables(bytes) {
        None => false,
        Some(tables) => has_counted(bytes, &tables),
    }
}
