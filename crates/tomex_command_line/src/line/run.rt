//! `run IMAGE [--base N] [--size N] [--limit N]`
ghost use Rattle.std.specs.Prelude.{◌≡◌, ◌≤◌, IfOk, IfErr};
ghost use Rattle.tomex_arguments.specs.Faults.{IsRefusedIf};
ghost use Rattle.tomex_command_line.specs.Grammar.{run_shape};
ghost use Rattle.clap.specs.Simple.{shape_of};
ghost use Rattle.clap.specs.Words.{found_of};
ghost use Rattle.clap.specs.Walk.{rows_of};
ghost use Rattle.tomex_command_line.specs.Values.{IsRunAsked, IsNoRun};
ghost use Rattle.tomex_command_line.specs.Limits.{most_steps};

use super::image::{ImageLine, image_of, on_image};
use super::texts::{Texts, with_argument};
use super::values::number;
use clap::{ArgMatches, Command};
use std::alloc::{AllocError, Global};
use tomex_arguments::{Bounds, LineFault, number_of};

const LIMIT: Bounds = Bounds {
    least: 1,
    greatest: 262_144,
};

/// A request for a run.
#[derive(Clone, Copy)]
pub struct RunLine<'a> {
    pub image: ImageLine<'a>,
    /// The greatest number of instructions.
    pub limit: u32,
    pub ghost limit_from: { 1 ≤ limit },
    pub ghost limit_to: { limit ≤ most_steps },
}

const ABOUT: &str = "Runs an image in order and prints the registers at its end";

const LONG_ABOUT: &str = "Runs an image, one instruction after the other, until it reaches ECALL or
EBREAK. Prints the 32 registers in hexadecimal, a line each, and then how and
where the program ended and after how many instructions.

IMAGE is a flat file of RV32IM code and data, as `objcopy -O binary` writes it,
or a 32-bit ELF executable that is linked statically for RISC-V. A flat file is
loaded at the base address and starts there; an ELF file says itself where it
starts and where its segments are, which must be inside memory. The rest of
memory is zero, and so are all registers but x2: it holds the end of memory,
rounded down to a multiple of 16. docs/PROGRAMS.md shows how to make programs
from C.

Numbers are decimal.";

const AFTER_LONG_HELP: &str = "Exit status:
  0  the program ended, by ECALL or EBREAK
  1  the window, the image or the run was refused
  2  the command line was refused
  3  memory, a file or a device was refused

Examples, in the folder `examples`:
  tomex run primes.elf --base 65536 --size 262144
  tomex run mul.bin --base 0 --size 65536 --limit 100

print x0 to x31, a line each, as
  x2=00000007
and then how the program ended, as
  ebreak at 0000000c after 4";

const TEXTS: Texts = Texts {
    about: ABOUT,
    long_about: LONG_ABOUT,
    after_long_help: AFTER_LONG_HELP,
};

const LIMIT_HELP: &str = "The most instructions to run, 1 to 262144";

pub(super) fn grammar<'a>(alloc: Global) -> Result<Command<'a>, AllocError>
    ensures { IfOk result (λ c. shape_of c ≡ run_shape) }
{
    let command = on_image(alloc, "run", TEXTS);
    with_argument(command, number(alloc, "limit", LIMIT, "262144", LIMIT_HELP))
}

pub(super) fn line_of<'a>(alloc: Global, matches: &ArgMatches<'a>) -> Result<RunLine<'a>, LineFault>
    ensures line { IfOk result
        (λ line. IsRunAsked (rows_of (found_of matches.now))
        line.image.file.now line.image.base line.image.size line.limit) }
    ensures refused { IfErr result (IsRefusedIf (IsNoRun (rows_of (found_of matches.now)))) }
{
    Ok(RunLine {
        image: image_of(alloc, matches)?,
        limit: number_of(alloc, matches, "limit", LIMIT)?,
    })
}
