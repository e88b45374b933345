//! The command `cut`.
ghost use Rattle.std.specs.Prelude.{◌≡◌, IfOk, IfErr, true};
ghost use Rattle.tomex_command.specs.CutLines.{IsCutFailure, IsCutOf, IsPartFile};
ghost use Rattle.tomex_cut.specs.Cut.{IsRefused};
ghost use Rattle.tomex_symbols.specs.Symbols.{has_symbols};

use super::image::{ImageFile, image_file_of};
use crate::failure::Failure;
use crate::stepping::Stepping;
use std::alloc::{Allocator, Global};
use tomex_command_line::CutLine;
use tomex_cut::{CutError, Follower, cut, cut_with_symbols};
use tomex_streams::{Counted, Files, Meter};
use tomex_symbols::has_symbols;

/// The most bytes of a file whose symbols are written: those of one that is read.
const MOST_BYTES: usize = 268_435_456;

/// The file of the part that a line asks for.
fn part_file<A: Allocator + Clone, W: Follower>(
    alloc: A,
    file: &ImageFile<A>,
    line: CutLine<'_>,
    watch: &W,
) -> Result<Vec<u8, A>, CutError>
    requires { line.symbols ≡ true → has_symbols file.now.bytes.items ≡ true }
    ensures ok { IfOk result (λ text.
        IsPartFile line.entry.symbols file.now.image file.now.bytes.items line.entry.from line.entry.steps
        text.items) }
    ensures err { IfErr result (λ e. IsRefused file.now.image line.entry.from line.entry.steps e) }
{
    let (image, bytes) = (&file.image, file.bytes.as_slice());
    if !line.symbols {
        return cut(alloc, image, line.from, line.steps, watch);
    }
    if bytes.len() > MOST_BYTES {
        return Err(CutError::Memory);
    }
    cut_with_symbols(alloc, image, bytes, line.from, line.steps, watch)
}

/// The file that `cut` prints. The meter shows how far the run is on its way to the part.
pub fn text_of_cut<F: Files, A: Allocator + Clone, M: Meter>(
    alloc: A,
    heap: Global,
    line: CutLine<'_>,
    files: &F,
    meter: &M,
) -> Result<Vec<u8, A>, Failure>
    ensures text { IfOk result (λ text. IsCutOf (F.file files.now) line.entry text.items) }
    ensures failure { IfErr result (λ failure. IsCutFailure (F.file files.now) line.entry failure) }
{
    let file = image_file_of(alloc.clone()?, heap, files, line.image)?;
    if line.symbols && !has_symbols(file.bytes.as_slice()) {
        return Err(Failure::NoSymbols);
    }
    let counted = Counted::Steps;
    let part = part_file(alloc, &file, line, &Stepping { meter, counted });
    meter.clear();
    Ok(part?)
}
