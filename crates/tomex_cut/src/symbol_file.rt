//! An ELF file with one segment, a window's whole memory, and the symbols of another file that name code.

ghost use Rattle.std.specs.Prelude.{◌≡◌, ◌<◌, ◌≤◌, ◌^◌, ◌++◌, All, IfOk, OnOk, length};
ghost use Rattle.std.specs.List.{take_while};
ghost use Rattle.tomex_cut.specs.SymbolFile.{binding_number, entry_of, info_of, is_local, listing, names_in};
ghost use Rattle.tomex_cut.specs.SymbolFile.{section_headers, start_in, symbol_file_of, symbol_table, type_of};
ghost use Rattle.tomex_cut.specs.Writing.{IsNamedFrom};
ghost use Rattle.tomex_symbols.specs.Sections.{tables_of};

use std::alloc::{AllocError, Allocator};
use tomex_elf::{HEADERS, SectionTable, push_halves, push_headers, push_words};
use tomex_image::Window;
use tomex_symbols::{Binding, Kind, Symbol, find_tables, symbols};

/// The bytes of the section headers.
const SECTION_HEADERS: u32 = 160;

/// The bytes of an entry of the symbol table.
const ENTRY: u32 = 16;

// Types and bindings of symbols, by the standard's names.
const STT_NOTYPE: u8 = 0;

const STT_FUNC: u8 = 2;

const STB_LOCAL: u8 = 0;

const STB_GLOBAL: u8 = 1;

const STB_WEAK: u8 = 2;

/// The names of the sections, after a zero byte that ends the symbols' last name.
const SECTION_NAMES: [u8; 23] = *b"\0.text\0.symtab\0.strtab\0";

/// The number of a symbol's type.
fn type_of(kind: Kind) -> u8
    ensures value { result ≡ type_of kind }
    ensures small { result ≤ 2 }
{
    match kind {
        Kind::Function => STT_FUNC,
        Kind::Label => STT_NOTYPE,
    }
}

/// The number of a symbol's binding.
fn binding_number(binding: Binding) -> u8
    ensures value { result ≡ binding_number binding }
    ensures small { result ≤ 2 }
{
    match binding {
        Binding::Global => STB_GLOBAL,
        Binding::Weak => STB_WEAK,
        Binding::Other => STB_LOCAL,
    }
}

/// A symbol's binding and type in a byte: `st_info`.
fn info_of(symbol: &Symbol) -> u8
    ensures { result ≡ info_of symbol.now }
{
    16 * binding_number(symbol.binding) + type_of(symbol.kind)
}

/// Appends the entry of a symbol, whose file's names begin at `start`.
fn push_entry<A: Allocator>(
    file: &mut Vec<u8, A>,
    symbol: &Symbol,
    start: usize,
) -> Result<(), AllocError>
    requires { IsNamedFrom start symbol.now }
    ensures { OnOk result (file.new.items ≡ file.old.items ++ entry_of start symbol.now) }
{
    let name = (symbol.name - start) as u32;
    push_words(file, [name, symbol.address, symbol.size].as_slice())?;
    file.extend_from_slice([info_of(symbol), 0].as_slice())?;
    push_halves(file, [1].as_slice())
}

/// Appends the symbol table: an entry of zeros, and one for each symbol.
fn push_symbol_table<A: Allocator>(
    file: &mut Vec<u8, A>,
    symbols: &[Symbol],
    start: usize,
) -> Result<(), AllocError>
    requires { All (IsNamedFrom start) symbols.now }
    ensures { OnOk result (file.new.items ≡ file.old.items ++ symbol_table start symbols.now) }
{
    push_words(file, [0; 4].as_slice())?;
    for symbol in symbols {
        push_entry(file, symbol, start)?;
    }
    Ok(())
}

/// How many local symbols there are before all others.
fn count_locals(symbols: &[Symbol]) -> usize
    ensures { result ≡ length (take_while is_local symbols.now) }
{
    symbols
        .iter()
        .take_while(|symbol| matches!(symbol.binding, Binding::Other))
        .count()
}

/// Appends the section headers, for `count` symbols, of which the first `locals` are local, and `size` bytes of names:
/// of no section, `.text`, `.symtab` and `.strtab`. Each has `sh_name`, `sh_type`, `sh_flags`, `sh_addr`, `sh_offset`,
/// `sh_size`, `sh_link`, `sh_info`, `sh_addralign` and `sh_entsize`.
fn push_section_headers<A: Allocator>(
    file: &mut Vec<u8, A>,
    window: Window,
    count: u32,
    locals: u32,
    size: u32,
) -> Result<(), AllocError>
    requires few { (count ≤ 2 ^ 24) × (locals ≤ count) × (size ≤ 2 ^ 28) }
    ensures { OnOk result (file.new.items ≡ file.old.items ++ section_headers window count locals size) }
{
    window.keeps_limits();
    let (base, bytes) = (window.base(), window.size());
    let symbols_at = HEADERS as u32 + bytes + SECTION_HEADERS;
    let symbols_size = ENTRY * (count + 1);
    push_words(file, [0; 10].as_slice())?;
    push_words(
        file,
        [size + 1, 1, 6, base, 84, bytes, 0, 0, 4, 0].as_slice(),
    )?;
    push_words(
        file,
        [
            size + 7,
            2,
            0,
            0,
            symbols_at,
            symbols_size,
            3,
            locals + 1,
            4,
            ENTRY,
        ]
        .as_slice(),
    )?;
    let names_at = symbols_at + symbols_size;
    push_words(
        file,
        [size + 15, 3, 0, 0, names_at, size + 23, 0, 0, 1, 0].as_slice(),
    )
}

/// The names of a file's symbols, and where in it they begin.
#[derive(Clone, Copy)]
struct Names<'a> {
    start: usize,
    bytes: &'a [u8],
}

/// The names of a file's symbols; none if it has no symbols.
fn names_of<'a>(bytes: &'a [u8]) -> Names<'a>
    ensures start { result.start ≡ start_in (tables_of bytes.now) }
    ensures bytes { result.bytes.now ≡ names_in bytes.now (tables_of bytes.now) }
    ensures few { length result.bytes.now ≤ length bytes.now }
{
    match find_tables(bytes) {
        None => Names {
            start: 0,
            bytes: &[],
        },
        Some(tables) => {
            let start = tables.names.offset as usize;
            Names {
                start,
                bytes: &bytes[start..start + tables.names.size as usize],
            }
        }
    }
}

/// Appends what the file has after the memory.
fn push_listing<A: Allocator>(
    file: &mut Vec<u8, A>,
    window: Window,
    symbols: &[Symbol],
    start: usize,
    names: &[u8],
) -> Result<(), AllocError>
    requires named { All (IsNamedFrom start) symbols.now }
    requires few { (length symbols.now ≤ 2 ^ 24) × (length names.now ≤ 2 ^ 28) }
    ensures { OnOk result (file.new.items
        ≡ file.old.items ++ listing window symbols.now start names.now) }
{
    let count = symbols.len() as u32;
    let locals = count_locals(symbols) as u32;
    push_section_headers(file, window, count, locals, names.len() as u32)?;
    push_symbol_table(file, symbols, start)?;
    file.extend_from_slice(names)?;
    file.extend_from_slice(SECTION_NAMES.as_slice())?;
    Ok(())
}

/// The file of a window's memory, with the symbols of the file `bytes`.
pub(crate) fn symbol_file_of<A: Allocator + Clone>(
    alloc: A,
    window: Window,
    entry: u32,
    memory: &[u8],
    bytes: &[u8],
) -> Result<Vec<u8, A>, AllocError>
    requires memory { length memory.now < 2 ^ 32 }
    requires bytes { length bytes.now ≤ 2 ^ 28 }
    ensures { IfOk result (λ file. file.items ≡ symbol_file_of window entry memory.now bytes.now) }
{
    window.keeps_limits();
    let symbols = symbols(alloc.clone()?, bytes)?;
    let names = names_of(bytes);
    let tables = ENTRY as usize * (symbols.len() + 1) + names.bytes.len() + SECTION_NAMES.len();
    let size = HEADERS + memory.len() + SECTION_HEADERS as usize + tables;
    let mut file = Vec::with_capacity(alloc, size)?;
    let sections = SectionTable {
        offset: HEADERS as u32 + window.size(),
        header_size: 40,
        count: 4,
        names: 3,
    };
    push_headers(&mut file, window.base(), window.size(), entry, sections)?;
    file.extend_from_slice(memory)?;
    push_listing(
        &mut file,
        window,
        symbols.as_slice(),
        names.start,
        names.bytes,
    )?;
    Ok(file)
}
