//! A part of a run as an image's file.

ghost use Rattle.std.specs.Prelude.{◌≡◌, ◌≢◌, ◌+◌, ◌-◌, ◌<◌, ◌≤◌, ◌^◌, Err, IfErr, IfOk, IfNone, IfSome, Ok};
ghost use Rattle.std.specs.Prelude.{length, true};
ghost use Rattle.tomex_cut.specs.After.{after};
ghost use Rattle.tomex_cut.specs.Cut.{IsCut, IsCutAt, IsCutWithSymbols, IsRefused};
ghost use Rattle.tomex_cut.specs.Finding.{IsPartFound};
ghost use Rattle.tomex_cut.specs.Part.{most_part, part_of};
ghost use Rattle.tomex_rvexec.specs.Flow.{IsState};
ghost use Rattle.tomex_rvexec.specs.Run.{start_of};
ghost use Rattle.tomex_symbols.specs.Symbols.{has_symbols};

use crate::error::CutError;
use crate::follower::Follower;
use crate::prologue::write_prologue;
use crate::symbol_file::symbol_file_of;
use crate::walking::{find_end, skip};
use crate::words::Words;
use std::alloc::{AllocError, Allocator};
use tomex_elf::file_of;
use tomex_image::{Image, Window};
use tomex_rvexec::{Cpu, Memory};

/// A part of a run: the state before it, where it ends, and the words that aren't free for a prologue.
#[derive(Drop)]
struct Part<A: Allocator> {
    pc: u32,
    registers: [u32; 32],
    memory: Memory<A>,
    end: Option<u32>,
    is_overwritten: bool,
    words: Words<A>,
}

/// A copy of a window's memory.
fn copy_memory<A: Allocator>(
    alloc: A,
    window: Window,
    bytes: &[u8],
) -> Result<Memory<A>, AllocError>
    requires { length bytes.now ≡ window.size }
    ensures { IfOk result (λ m. m ≡ record { base = window.base; bytes = bytes.now }) }
{
    window.keeps_limits();
    let mut copy = Vec::with_capacity(alloc, bytes.len())?;
    copy.extend_from_slice(bytes)?;
    Ok(Memory::new(window.base(), copy))
}

/// The machine before step `from` of the run.
fn reach<'a, A: Allocator, F: Follower>(
    alloc: A,
    image: &'a Image<A>,
    from: u64,
    follower: &F,
) -> Result<Cpu<'a, A>, CutError>
    ensures reached { IfOk result (λ s. after (start_of image.now) (from - 1) ≡ Ok s) }
    ensures state { IfOk result (λ s. IsState s) }
    ensures image { IfOk result (λ s. s.image ≡ image.now) }
    ensures err { IfErr result (λ e. e ≢ CutError.Memory → after (start_of image.now) (from - 1) ≡ Err e) }
{
    image.fills_its_window();
    let mut cpu = Cpu::new(alloc, image)?;
    skip(&mut cpu, from.saturating_sub(1), follower)?;
    Ok(cpu)
}

/// Finds the part that begins with step `from` and has at least `least` steps.
fn find_part<A: Allocator + Clone, F: Follower>(
    alloc: A,
    image: &Image<A>,
    from: u64,
    least: u32,
    follower: &F,
) -> Result<Part<A>, CutError>
    requires { (1 ≤ least) × (least ≤ most_part) }
    ensures ok { IfOk result (λ p. IsPartFound image.now from least p.pc p.registers p.memory p.end p.is_overwritten
        p.words.base p.words.marks.items) }
    ensures err { IfErr result (λ e. e ≢ CutError.Memory → part_of image.now from least ≡ Err e) }
{
    let window = image.window();
    window.keeps_limits();
    let mut cpu = reach(alloc.clone()?, image, from, follower)?;
    let (pc, registers) = (cpu.pc(), cpu.registers());
    let memory = copy_memory(alloc.clone()?, window, cpu.memory())?;
    let mut words = Words::new(alloc, window)?;
    let found = find_end(&mut cpu, image, memory.bytes(), &mut words, least)?;
    words.mark_end(found.end);
    Ok(Part {
        pc,
        registers,
        memory,
        end: found.end,
        is_overwritten: found.is_overwritten,
        words,
    })
}

/// The memory before a part with a prologue in it, and where that begins.
#[derive(Drop)]
struct Entered<A: Allocator> {
    entry: u32,
    memory: Memory<A>,
}

/// Carries out the run up to the part and the part, and writes the prologue.
fn enter_part<A: Allocator + Clone, F: Follower>(
    alloc: A,
    image: &Image<A>,
    from: u64,
    least: u32,
    follower: &F,
) -> Result<Entered<A>, CutError>
    requires { (1 ≤ least) × (least ≤ most_part) }
    ensures ok { IfOk result (λ e. IsCutAt image.now from least e.entry e.memory) }
    ensures size { IfOk result (λ e. length e.memory.bytes ≤ 2 ^ 20) }
    ensures err { IfErr result (λ e. IsRefused image.now from least e) }
{
    let mut part = find_part(alloc, image, from, least, follower)?;
    if part.is_overwritten {
        return Err(CutError::Overwritten);
    }
    let Some(hook) = part.words.hook(part.pc) else {
        return Err(CutError::NoRoom);
    };
    let Some(place) = part.words.place(hook) else {
        return Err(CutError::NoRoom);
    };
    write_prologue(
        &mut part.memory,
        hook,
        place,
        part.end,
        part.pc,
        &part.registers,
    );
    Ok(Entered {
        entry: place,
        memory: part.memory,
    })
}

/// The ELF file of the part of an image's run that begins with step `from`, the first being 1, and has at least `least`
/// steps; fewer only if the run ends.
///
/// The whole run before the part is carried out, and `follower` is called after every million of its steps. Allocates the
/// memory's size twice, a quarter of it, and the file.
pub fn cut<A: Allocator + Clone, F: Follower>(
    alloc: A,
    image: &Image<A>,
    from: u64,
    least: u32,
    follower: &F,
) -> Result<Vec<u8, A>, CutError>
    requires { (1 ≤ least) × (least ≤ most_part) }
    ensures ok { IfOk result (λ file. IsCut image.now from least file.items) }
    ensures err { IfErr result (λ e. IsRefused image.now from least e) }
{
    let part = enter_part(alloc.clone()?, image, from, least, follower)?;
    Ok(file_of(alloc, image.window(), part.entry, part.memory.bytes())?)
}

/// The same with symbols: the file also has those of the image's own file, `bytes`, that name code, as `nm` and
/// debuggers read them. There must be one, so a caller tests that before any step is carried out.
///
/// Allocates the list of the symbols too.
pub fn cut_with_symbols<A: Allocator + Clone, F: Follower>(
    alloc: A,
    image: &Image<A>,
    bytes: &[u8],
    from: u64,
    least: u32,
    follower: &F,
) -> Result<Vec<u8, A>, CutError>
    requires least { (1 ≤ least) × (least ≤ most_part) }
    requires symbols { has_symbols bytes.now ≡ true }
    requires size { length bytes.now ≤ 2 ^ 28 }
    ensures ok { IfOk result (λ file. IsCutWithSymbols image.now bytes.now from least file.items) }
    ensures err { IfErr result (λ e. IsRefused image.now from least e) }
{
    let part = enter_part(alloc.clone()?, image, from, least, follower)?;
    let memory = part.memory.bytes();
    Ok(symbol_file_of(alloc, image.window(), part.entry, memory, bytes)?)
}
