//! The file of a program: an ELF executable with symbols.

ghost use Rattle.std.specs.Prelude.{◌≡◌, ◌++◌, ◌≤◌, ◌∷◌, OnOk, IfOk, map, length, replicate, ◌-◌, ◌%◌, ◌^◌};
ghost use Rattle.tomex_asm_numbers.specs.Indexed.{definition_of};
ghost use Rattle.tomex_asm_places.specs.Positions.{AreFew};
ghost use Rattle.tomex_asm.specs.File.{data_header, entries, file_of, listing, memory, names, names_end};
ghost use Rattle.tomex_asm.specs.File.{names_header, section_headers, section_names, symbols_header, table_size};
ghost use Rattle.tomex_asm.specs.File.{text_header};
ghost use Rattle.tomex_asm.specs.Found.{program_of};
ghost use Rattle.tomex_asm.specs.Named.{symbol_of};

use crate::symbols::{Symbol, names_end, push_entries, push_names};
use std::alloc::{AllocError, Allocator};
use tomex_asm_words::Frame;
use tomex_elf::push_words;

/// The names of the sections.
const SECTION_NAMES: [u8; 28] = *b".text\0.data\0.symtab\0.strtab\0";

/// The bytes of the symbol table of this many symbols.
fn table_size(count: u32) -> u32
    ensures { result ≡ table_size count }
{
    ((u64::from(count) + 1) * 16 % (1 << 32)) as u32
}

/// Appends zeros.
fn push_zeros<A: Allocator>(file: &mut Vec<u8, A>, count: usize) -> Result<(), AllocError>
    ensures { OnOk result (file.new.items ≡ file.old.items ++ replicate count 0) }
{
    for _ in 0..count {
        file.push(0)?;
    }
    Ok(())
}

/// Appends the memory: the text, the data, and zeros after each.
pub(crate) fn push_memory<A: Allocator>(
    file: &mut Vec<u8, A>,
    gap: usize,
    size: usize,
    code: &[u8],
    contents: &[u8],
) -> Result<(), AllocError>
    ensures { OnOk result (file.new.items ≡ file.old.items ++ memory gap size code.now contents.now) }
{
    file.extend_from_slice(code)?;
    push_zeros(file, gap.saturating_sub(code.len()))?;
    file.extend_from_slice(contents)?;
    push_zeros(
        file,
        size.saturating_sub(gap).saturating_sub(contents.len()),
    )
}

/// Appends the header of `.text`.
fn push_text_header<A: Allocator>(
    file: &mut Vec<u8, A>,
    frame: Frame,
    text: u32,
    names: u32,
) -> Result<(), AllocError>
    ensures { OnOk result (file.new.items ≡ file.old.items ++ text_header frame text names) }
{
    push_words(
        file,
        [names, 1, 6, frame.base, 84, text, 0, 0, 4, 0].as_slice(),
    )
}

/// Appends the header of `.data`.
fn push_data_header<A: Allocator>(
    file: &mut Vec<u8, A>,
    frame: Frame,
    contents: u32,
    names: u32,
) -> Result<(), AllocError>
    ensures { OnOk result (file.new.items ≡ file.old.items ++ data_header frame contents names) }
{
    let name = names.wrapping_add(6);
    let address = frame.base.wrapping_add(frame.gap);
    let offset = frame.gap.wrapping_add(84);
    push_words(
        file,
        [name, 1, 3, address, offset, contents, 0, 0, 16, 0].as_slice(),
    )
}

/// Appends the header of `.symtab`. The symbols begin at `start`.
fn push_symbols_header<A: Allocator>(
    file: &mut Vec<u8, A>,
    start: u32,
    count: u32,
    locals: u32,
    names: u32,
) -> Result<(), AllocError>
    ensures { OnOk result (file.new.items ≡ file.old.items ++ symbols_header start count locals names) }
{
    let name = names.wrapping_add(12);
    let size = table_size(count);
    let first = locals.wrapping_add(1);
    push_words(
        file,
        [name, 2, 0, 0, start, size, 4, first, 4, 16].as_slice(),
    )
}

/// Appends the header of `.strtab`.
fn push_names_header<A: Allocator>(
    file: &mut Vec<u8, A>,
    start: u32,
    count: u32,
    names: u32,
) -> Result<(), AllocError>
    ensures { OnOk result (file.new.items ≡ file.old.items ++ names_header start count names) }
{
    let name = names.wrapping_add(20);
    let offset = start.wrapping_add(table_size(count));
    let size = names.wrapping_add(28);
    push_words(file, [name, 3, 0, 0, offset, size, 0, 0, 1, 0].as_slice())
}

/// Appends the headers of the sections.
fn push_section_headers<A: Allocator>(
    file: &mut Vec<u8, A>,
    frame: Frame,
    text: u32,
    contents: u32,
    start: u32,
    count: u32,
    locals: u32,
    names: u32,
) -> Result<(), AllocError>
    ensures { OnOk result (file.new.items
        ≡ file.old.items ++ section_headers frame text contents start count locals names) }
{
    push_words(file, [0, 0, 0, 0, 0, 0, 0, 0, 0, 0].as_slice())?;
    push_text_header(file, frame, text, names)?;
    push_data_header(file, frame, contents, names)?;
    push_symbols_header(file, start, count, locals, names)?;
    push_names_header(file, start, count, names)?;
    Ok(())
}

/// Appends what stands after the memory.
pub(crate) fn push_listing<'a, A: Allocator>(
    file: &mut Vec<u8, A>,
    frame: Frame,
    text: u32,
    contents: u32,
    start: u32,
    locals: u32,
    symbols: &[Symbol<'a>],
) -> Result<(), AllocError>
    ensures { OnOk result (file.new.items
        ≡ file.old.items ++ listing frame text contents start locals (map symbol_of symbols.now)) }
{
    let count = (symbols.len() as u64 % (1 << 32)) as u32;
    let names = names_end(symbols);
    push_section_headers(file, frame, text, contents, start, count, locals, names)?;
    push_zeros(file, 16)?;
    push_entries(file, symbols)?;
    file.push(0)?;
    push_names(file, symbols)?;
    file.extend_from_slice(SECTION_NAMES.as_slice())?;
    Ok(())
}
