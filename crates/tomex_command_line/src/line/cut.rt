//! `cut IMAGE FROM STEPS [--base N] [--size N] [--symbols]`
ghost use Rattle.std.specs.Prelude.{◌≡◌, ◌≤◌, IfOk, IfErr};
ghost use Rattle.tomex_arguments.specs.Faults.{IsRefusedIf};
ghost use Rattle.tomex_command_line.specs.Grammar.{cut_shape};
ghost use Rattle.clap.specs.Simple.{shape_of};
ghost use Rattle.clap.specs.Words.{found_of};
ghost use Rattle.clap.specs.Walk.{rows_of};
ghost use Rattle.tomex_command_line.specs.Values.{IsCutAsked, IsNoCut};
ghost use Rattle.tomex_command_line.specs.Limits.{last_from, most_part};

use super::image::{ImageLine, image_of, on_image};
use super::texts::{Texts, with_argument};
use super::values::{flag, long_numeral, numeral};
use clap::{ArgMatches, Command};
use std::alloc::{AllocError, Global};
use tomex_arguments::{Bounds, LineFault, LongBounds, flag_of, long_number_of, number_of};

/// The numbers of a long run's steps.
const FROM: LongBounds = LongBounds {
    least: 1,
    greatest: 4_294_967_296,
};

/// The steps that a part may be asked for.
pub(super) const STEPS: Bounds = Bounds {
    least: 1,
    greatest: 262_079,
};

/// A request for a part of a run as an image.
#[derive(Clone, Copy)]
pub struct CutLine<'a> {
    pub image: ImageLine<'a>,
    /// The number of the part's first step, from 1.
    pub from: u64,
    /// The least number of its steps.
    pub steps: u32,
    /// True if the image has the symbols of its file, too.
    pub symbols: bool,
    pub ghost from_least: { 1 ≤ from },
    pub ghost from_to: { from ≤ last_from },
    pub ghost steps_least: { 1 ≤ steps },
    pub ghost steps_to: { steps ≤ most_part },
}

const ABOUT: &str = "Writes a part of a program's run as an image of its own";

const LONG_ABOUT: &str =
    "Writes an image, an ELF file, whose run is a part of the run of IMAGE: the part
that begins with step FROM, the first step of a run being 1, and has at least
STEPS steps. It is an ordinary program: a study takes it like any other one, as
long as it has the same memory, from --base on and --size bytes. So a program
that is `too long` can be explored by parts of its run.

The image's run is 64 instructions that load the registers, and then the part,
step by step: the same instructions with the same values at the same addresses.
The part ends at the first of its steps, from step STEPS of it on, that ends the
run, or after which the next instruction is in a word that no step of the part
has used; there the image has an EBREAK.

IMAGE is loaded as by `tomex run`, and its run may be as long as it likes before
the part. The image is written to standard output, which must not be a terminal.
With --symbols it also has the functions and labels of IMAGE, which must be an
ELF file with symbols, so that `--by-function` and `tomex functions` take it,
and `nm` and debuggers read them.

Numbers are decimal.";

const AFTER_LONG_HELP: &str = "Exit status:
  0  the image was written
  1  the window, the image or its run was refused, or the run ends before step
     FROM, or the part has no end within 262,079 steps, or its code was
     overwritten before it, or there is no room for the 64 instructions, or
     IMAGE has no symbols for --symbols
  2  the command line was refused
  3  memory, a file or a device was refused

Example, in the folder `examples`:
  tomex cut primes.elf 5001 1000 --base 65536 --size 262144 > part.elf";

const TEXTS: Texts = Texts {
    about: ABOUT,
    long_about: LONG_ABOUT,
    after_long_help: AFTER_LONG_HELP,
};

const FROM_HELP: &str = "The number of the part's first step, 1 to 4294967296";

const STEPS_HELP: &str = "The least number of its steps, 1 to 262079";

const SYMBOLS_HELP: &str = "Write the functions and labels of IMAGE too";

pub(super) fn grammar<'a>(alloc: Global) -> Result<Command<'a>, AllocError>
    ensures { IfOk result (λ c. shape_of c ≡ cut_shape) }
{
    let command = on_image(alloc, "cut", TEXTS);
    let command = with_argument(command, long_numeral(alloc, "FROM", FROM, FROM_HELP));
    let command = with_argument(command, numeral(alloc, "STEPS", STEPS, STEPS_HELP));
    with_argument(command, flag(alloc, "symbols", SYMBOLS_HELP))
}

pub(super) fn line_of<'a>(alloc: Global, matches: &ArgMatches<'a>) -> Result<CutLine<'a>, LineFault>
    ensures line { IfOk result
        (λ line. IsCutAsked (rows_of (found_of matches.now))
        line.image.file.now line.image.base line.image.size line.from line.steps line.symbols) }
    ensures refused { IfErr result (IsRefusedIf (IsNoCut (rows_of (found_of matches.now)))) }
{
    Ok(CutLine {
        image: image_of(alloc, matches)?,
        from: long_number_of(alloc, matches, "FROM", FROM)?,
        steps: number_of(alloc, matches, "STEPS", STEPS)?,
        symbols: flag_of(matches, "symbols"),
    })
}
