//! `pipeline STUDY CONFIG PROGRAM [--from N] [--steps N] [--konata]`
ghost use Rattle.std.specs.Prelude.{◌≡◌, ◌≤◌, IfOk, IfErr};
ghost use Rattle.tomex_arguments.specs.Faults.{IsRefusedIf};
ghost use Rattle.tomex_command_line.specs.Grammar.{pipeline_shape};
ghost use Rattle.clap.specs.Simple.{shape_of};
ghost use Rattle.clap.specs.Words.{found_of};
ghost use Rattle.clap.specs.Walk.{rows_of};
ghost use Rattle.tomex_command_line.specs.Values.{IsPipelineAsked, IsNoPipeline};
ghost use Rattle.tomex_command_line.specs.Limits.{most_steps};

use super::one_run::{OneRun, on_one_run, one_run_of};
use super::texts::{Texts, with_argument};
use super::values::{flag, number};
use clap::{ArgMatches, Command};
use std::alloc::{AllocError, Global};
use tomex_arguments::{Bounds, LineFault, flag_of, number_of};

/// The numbers of a run's instructions, and how many there can be.
const STEP: Bounds = Bounds {
    least: 1,
    greatest: 262_144,
};

/// A request for a picture of instructions.
#[derive(Clone, Copy)]
pub struct PipelineLine<'a> {
    pub run: OneRun<'a>,
    /// The number of the first instruction that is shown, in the order in which they ran, from 1.
    pub from: u32,
    /// The most instructions that are shown.
    pub steps: u32,
    /// True if a log for the viewer Konata is asked for, and no picture.
    pub konata: bool,
    pub ghost from_least: { 1 ≤ from },
    pub ghost from_to: { from ≤ most_steps },
    pub ghost steps_to: { steps ≤ most_steps },
}

const ABOUT: &str = "Draws what instructions do, cycle by cycle, on one configuration";

const LONG_ABOUT: &str = "Draws the instructions of a program's run on one of the study's
configurations: a line for each in the order in which they ran, and a column
for each cycle.

STUDY is a TOML document that names programs, prices, axes and unit options;
its files are read from the current folder. CONFIG is a configuration of it:
its number, from 0, as `tomex front` prints it, or choices that only it has,
joined by commas, as in alu=2,mul=2; `tomex find` lists configurations by
choices. PROGRAM is the name of a program of the study; a name that begins with
`-` must follow `--`. docs/STUDIES.md lists the keys of a study, and
docs/MACHINE.md says when an instruction does what.

Numbers on the command line are decimal; in the study's TOML they may be
hexadecimal too, as in 0x10000.

The first line has the cycles of the columns. Each other line has an
instruction's number, its address, its text, and its signs up to its end:
  I  it issues
  A  it computes its address, a load or store
  E  it is in its unit
  W  its result is on a common data bus
  -  its result waits for a bus
  =  it waits in its station for anything else

A picture of more than 16777216 signs is refused.

With --konata it prints a log of the same instructions for the viewer Konata, of
any size. docs/KONATA.md says how to read it.";

const AFTER_LONG_HELP: &str = "Exit status:
  0  the picture or the log was written
  1  the study or a program of it was refused, or has no such row or program,
     or its run ends before the first instruction that is asked for, or the
     picture is too large
  2  the command line was refused
  3  memory, a file or a device was refused

Examples, in the folder `examples`:
  tomex pipeline study.toml 4 mul

prints
  cycles 1 to 8
  1 00000000 addi x1,x0,5 IEW
  2 00000004 addi x2,x0,7  IEW
  3 00000008 mul x3,x1,x2   I=EEEW
  4 0000000c ebreak          I
and
  tomex pipeline study.toml 4 mul --from 2 --steps 2

prints
  cycles 2 to 8
  2 00000004 addi x2,x0,7 IEW
  3 00000008 mul x3,x1,x2  I=EEEW
and
  tomex pipeline study.toml 4 mul --konata

prints a log of 47 lines, such as
  L\t0\t0\t00000000: addi x1,x0,5";

const TEXTS: Texts = Texts {
    about: ABOUT,
    long_about: LONG_ABOUT,
    after_long_help: AFTER_LONG_HELP,
};

const FROM_HELP: &str = "The number of the first instruction shown";

const STEPS_HELP: &str = "The most instructions shown";

const KONATA_HELP: &str = "Write a log for the viewer Konata";

pub(super) fn grammar<'a>(alloc: Global) -> Result<Command<'a>, AllocError>
    ensures { IfOk result (λ c. shape_of c ≡ pipeline_shape) }
{
    let command = on_one_run(alloc, "pipeline", TEXTS);
    let command = with_argument(command, number(alloc, "from", STEP, "1", FROM_HELP));
    let command = with_argument(command, number(alloc, "steps", STEP, "32", STEPS_HELP));
    with_argument(command, flag(alloc, "konata", KONATA_HELP))
}

pub(super) fn line_of<'a>(
    alloc: Global,
    matches: &ArgMatches<'a>,
) -> Result<PipelineLine<'a>, LineFault>
    ensures line { IfOk result (λ line. IsPipelineAsked (rows_of (found_of matches.now))
        line.run.study.now line.run.config line.run.program.now line.from line.steps line.konata) }
    ensures refused { IfErr result (IsRefusedIf (IsNoPipeline (rows_of (found_of matches.now)))) }
{
    Ok(PipelineLine {
        run: one_run_of(alloc, matches)?,
        from: number_of(alloc, matches, "from", STEP)?,
        steps: number_of(alloc, matches, "steps", STEP)?,
        konata: flag_of(matches, "konata"),
    })
}
