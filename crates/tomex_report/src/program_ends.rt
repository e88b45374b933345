//! The ends of programs on one configuration, by the cycle machine.

ghost use Rattle.std.specs.Prelude.{◌≡◌, ◌≤◌, ◌+◌, length, true, All, IfOk};
ghost use Rattle.std.specs.List.{AllZip, flat_map};
ghost use Rattle.tomex_image.specs.Image.{IsLoaded};
ghost use Rattle.tomex_study.specs.Program.{IsProgram};
ghost use Rattle.tomex_study.specs.Watch.{is_watchable};
ghost use Rattle.tomex_texts.specs.Ends.{bytes_at, IsProgramEnd};

use std::alloc::{AllocError, Allocator};
use tomex_config::Config;
use tomex_cycle::Machine;
use tomex_image::Window;
use tomex_study::{Program, WatchRange};
use tomex_sweep::MOST_CYCLES;
use tomex_texts::ProgramEnd;

/// The bytes of a range in the memory of a window.
fn range_bytes<'m>(window: Window, memory: &'m [u8], range: WatchRange) -> &'m [u8]
    requires fills { length memory.now ≡ window.size }
    requires inside { is_watchable window range ≡ true }
    ensures { result.now ≡ bytes_at window.base memory.now range }
{
    let from = (range.address - window.base()) as usize;
    let (_, rest) = memory.split_at(from);
    let (bytes, _) = rest.split_at(range.length as usize);
    bytes
}

/// The bytes of ranges in the memory of a window, range by range.
fn ranges_bytes<A: Allocator>(
    alloc: A,
    window: Window,
    memory: &[u8],
    ranges: &[WatchRange],
) -> Result<Vec<u8, A>, AllocError>
    requires fills { length memory.now ≡ window.size }
    requires inside { All (λ r. is_watchable window r ≡ true) ranges.now }
    ensures { IfOk result (λ v. v.items ≡ flat_map (bytes_at window.base memory.now) ranges.now) }
{
    let mut bytes = Vec::new(alloc);
    for range in ranges {
        bytes.extend_from_slice(range_bytes(window, memory, *range))?;
    }
    Ok(bytes)
}

/// The end of a program on a configuration.
fn program_end<A: Allocator + Clone>(
    alloc: A,
    program: &Program<A>,
    config: &Config,
) -> Result<ProgramEnd<A>, AllocError>
    ensures { IfOk result (λ e. IsProgramEnd config.now program.now e) }
{
    config.keeps_limits();
    program.keeps_limits();
    let window = program.image().window();
    let mut machine = Machine::new(alloc.clone()?, program.image(), config)?;
    machine.advance(MOST_CYCLES);
    let total = machine.cycle();
    let end = machine.finish();
    let watched = ranges_bytes(alloc, window, end.memory.bytes(), program.watch())?;
    Ok(ProgramEnd {
        total,
        kind: end.kind,
        pc: end.pc,
        steps: end.steps,
        regs: end.regs,
        watched,
    })
}

/// The end of each program on a configuration, in order.
pub(crate) fn each_end<A: Allocator + Clone>(
    alloc: A,
    programs: &[Program<A>],
    config: &Config,
) -> Result<Vec<ProgramEnd<A>, A>, AllocError>
    ensures { IfOk result (λ v. AllZip (IsProgramEnd config.now) programs.now v.items) }
{
    let mut ends = Vec::new(alloc.clone()?);
    for program in programs {
        ends.push(program_end(alloc.clone()?, program, config)?)?;
    }
    Ok(ends)
}
