//! `parts IMAGE STEPS [--base N] [--size N]`
ghost use Rattle.std.specs.Prelude.{◌≡◌, ◌≤◌, IfOk, IfErr};
ghost use Rattle.tomex_arguments.specs.Faults.{IsRefusedIf};
ghost use Rattle.tomex_command_line.specs.Grammar.{parts_shape};
ghost use Rattle.clap.specs.Simple.{shape_of};
ghost use Rattle.clap.specs.Words.{found_of};
ghost use Rattle.clap.specs.Walk.{rows_of};
ghost use Rattle.tomex_command_line.specs.Values.{IsPartsAsked, IsNoParts};
ghost use Rattle.tomex_command_line.specs.Limits.{most_part};

use super::cut::STEPS;
use super::image::{ImageLine, image_of, on_image};
use super::texts::{Texts, with_argument};
use super::values::numeral;
use clap::{ArgMatches, Command};
use std::alloc::{AllocError, Global};
use tomex_arguments::{LineFault, number_of};

/// A request for the parts that stand for a long run.
#[derive(Clone, Copy)]
pub struct PartsLine<'a> {
    pub image: ImageLine<'a>,
    /// The steps of a stretch of the run, and the least number of those of a part.
    pub steps: u32,
    pub ghost steps_least: { 1 ≤ steps },
    pub ghost steps_to: { steps ≤ most_part },
}

const ABOUT: &str = "Prints which parts of a long run stand for it, with weights";

const LONG_ABOUT: &str =
    "Prints which parts stand for the run of IMAGE, at most eight, and with which
weights a study takes them. `tomex cut` with the same STEPS makes an image of
each, so that a program that is `too long` can be explored by its parts.

The run is taken in stretches of STEPS steps. Two stretches are the more alike
the more often they run the same instructions. Stretches that are alike are one
group, and a part begins with the stretch of the group that is nearest to its
mean. The front of the parts is exact; how well they stand for the run is a
matter of samples: docs/PROGRAMS.md says what may be concluded.

IMAGE is loaded as by `tomex run`, and its run may have 16,384 stretches.
Numbers are decimal.

The report is CSV: a header, and a record for each part in the order of the run:
the number of its first step, for FROM of `tomex cut`; its steps; the number of
stretches that it stands for; and its weight, in a study's `weight`. The last
record is the total.";

const AFTER_LONG_HELP: &str = "Exit status:
  0  the report was written
  1  the window, the image or its run was refused, or the run has fewer than
     STEPS steps, or no part of it has an end
  2  the command line was refused
  3  memory, a file or a device was refused

Example, in the folder `examples`:
  tomex parts primes.elf 1000 --base 65536 --size 262144";

const TEXTS: Texts = Texts {
    about: ABOUT,
    long_about: LONG_ABOUT,
    after_long_help: AFTER_LONG_HELP,
};

const STEPS_HELP: &str = "The steps of a stretch, 1 to 262079";

pub(super) fn grammar<'a>(alloc: Global) -> Result<Command<'a>, AllocError>
    ensures { IfOk result (λ c. shape_of c ≡ parts_shape) }
{
    let command = on_image(alloc, "parts", TEXTS);
    with_argument(command, numeral(alloc, "STEPS", STEPS, STEPS_HELP))
}

pub(super) fn line_of<'a>(
    alloc: Global,
    matches: &ArgMatches<'a>,
) -> Result<PartsLine<'a>, LineFault>
    ensures line { IfOk result
        (λ line. IsPartsAsked (rows_of (found_of matches.now))
        line.image.file.now line.image.base line.image.size line.steps) }
    ensures refused { IfErr result (IsRefusedIf (IsNoParts (rows_of (found_of matches.now)))) }
{
    Ok(PartsLine {
        image: image_of(alloc, matches)?,
        steps: number_of(alloc, matches, "STEPS", STEPS)?,
    })
}
