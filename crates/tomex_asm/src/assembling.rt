//! From a text to the file of its program.

ghost use Rattle.std.specs.Prelude.{◌≡◌, ◌%◌, ◌^◌, IfOk, length, map};
ghost use Rattle.tomex_asm_places.specs.Kept.{IsPlaced};
ghost use Rattle.tomex_asm.specs.Assembled.{assembled, frame_of};
ghost use Rattle.tomex_asm.specs.File.{file_of, locals_of, sections, symbols_of};
ghost use Rattle.tomex_asm.specs.Found.{Gives, program_of};
ghost use Rattle.tomex_asm.specs.Named.{symbol_of, Files};

use crate::attributes::index_of;
use crate::file::{push_listing, push_memory};
use crate::program::{Program, frame_of, program_of};
use crate::refusal::AsmError;
use crate::symbols::{Symbol, entry_of, push_symbols};
use std::alloc::{AllocError, Allocator};
use tomex_asm_tokens::without_comments;
use tomex_asm_words::Frame;
use tomex_elf::{SectionTable, push_headers};

/// The symbols of a file: local ones, and then the others.
#[derive(Drop)]
struct Listed<'a, A: Allocator + Clone> {
    symbols: Vec<Symbol<'a>, A>,
    /// How many local ones there are, modulo 2^32.
    locals: u32,
}

fn symbols_of<'a, A: Allocator + Clone>(
    alloc: A,
    frame: Frame,
    program: &Program<'a, A>,
) -> Result<Listed<'a, A>, AllocError>
    ensures symbols { IfOk result (λ l. map symbol_of l.symbols.items ≡ symbols_of frame (program_of program.now)) }
    ensures locals { IfOk result (λ l. l.locals ≡ length (locals_of frame (program_of program.now)) % 2 ^ 32) }
{
    let index = index_of(alloc.clone()?, program.output.remarks.as_slice())?;
    let definitions = program.placed.table.definitions.as_slice();
    let mut symbols = Vec::new(alloc);
    push_symbols(&mut symbols, true, frame, &index, definitions)?;
    let locals = (symbols.len() as u64 % (1 << 32)) as u32;
    push_symbols(&mut symbols, false, frame, &index, definitions)?;
    Ok(Listed { symbols, locals })
}

/// The file of a program.
#[tactic(auto, unfolding(crate::specs::File::file_of))]
fn file_of<'a, A: Allocator + Clone>(
    alloc: A,
    program: &Program<'a, A>,
) -> Result<Vec<u8, A>, AllocError>
    requires { IsPlaced program.now.placed }
    ensures { IfOk result (λ file. file.items ≡ file_of (program_of program.now)) }
{
    let position = program.placed.position;
    let frame = frame_of(program.base, position);
    let size = (position.end(program.base) - u64::from(program.base)) as u32;
    let listed = symbols_of(alloc.clone()?, frame, program)?;
    let entry = entry_of(frame, program.placed.table.definitions.as_slice());
    let sections = SectionTable {
        offset: size.wrapping_add(84),
        header_size: 40,
        count: 5,
        names: 4,
    };
    let mut file = Vec::new(alloc);
    push_headers(&mut file, program.base, size, entry, sections)?;
    push_memory(
        &mut file,
        frame.gap as usize,
        size as usize,
        program.output.code.as_slice(),
        program.output.contents.as_slice(),
    )?;
    push_listing(
        &mut file,
        frame,
        position.text_size,
        position.data_size,
        size.wrapping_add(284),
        listed.locals,
        listed.symbols.as_slice(),
    )?;
    Ok(file)
}

/// The file of a text's program, whose first byte of text is at `base`, or the text's first refusal.
#[tactic(auto, unfolding(crate::specs::Assembled::assembled))]
pub fn assemble<A: Allocator + Clone>(
    alloc: A,
    text: &[u8],
    base: u32,
) -> Result<Vec<u8, A>, AsmError>
    ensures { Files result (assembled text.now base) }
{
    let bare = without_comments(alloc.clone()?, text)?;
    let program = program_of(alloc.clone()?, base, bare.as_slice())?;
    Ok(file_of(alloc, &program)?)
}
