//! `animate STUDY CONFIG PROGRAM [--from CYCLE] [--cycles N] [--blank]`
ghost use Rattle.std.specs.Prelude.{◌≡◌, ◌≤◌, IfOk, IfErr};
ghost use Rattle.tomex_arguments.specs.Faults.{IsRefusedIf};
ghost use Rattle.tomex_command_line.specs.Grammar.{animate_shape};
ghost use Rattle.clap.specs.Simple.{shape_of};
ghost use Rattle.clap.specs.Words.{found_of};
ghost use Rattle.clap.specs.Walk.{rows_of};
ghost use Rattle.tomex_command_line.specs.Values.{IsAnimateAsked, IsNoAnimate};
ghost use Rattle.tomex_command_line.specs.Limits.{last_cycle};

use super::one_run::{OneRun, on_one_run, one_run_of};
use super::texts::{Texts, with_argument};
use super::values::{flag, number};
use clap::{ArgMatches, Command};
use std::alloc::{AllocError, Global};
use tomex_arguments::{Bounds, LineFault, flag_of, number_of};

/// The cycles of a run. No program takes more: 67 for each of 262,144 instructions.
const CYCLE: Bounds = Bounds {
    least: 1,
    greatest: 17_563_648,
};

/// The number of cycles that a page can show.
const CYCLES: Bounds = Bounds {
    least: 1,
    greatest: 256,
};

/// A request for a page that shows a run cycle by cycle.
#[derive(Clone, Copy)]
pub struct AnimateLine<'a> {
    pub run: OneRun<'a>,
    /// The first cycle that is shown.
    pub from: u32,
    /// The most cycles that are shown.
    pub cycles: u32,
    /// True if the cells are left empty.
    pub blank: bool,
    pub ghost from_least: { 1 ≤ from },
    pub ghost from_to: { from ≤ last_cycle },
    pub ghost cycles_least: { 1 ≤ cycles },
    pub ghost cycles_to: { cycles ≤ 256 },
}

const ABOUT: &str = "Shows a run in a web page, cycle by cycle";

const LONG_ABOUT: &str = "Prints a web page that shows a program's run on one of the study's
configurations cycle by cycle, with the tables of Tomasulo's algorithm: what
happens in the cycle, the status of the instructions, all reservation stations,
and the registers that wait for a station. What has changed is marked.

STUDY is a TOML document that names programs, prices, axes and unit options;
its files are read from the current folder. CONFIG is a configuration of it:
its number, from 0, as `tomex front` prints it, or choices that only it has,
joined by commas, as in alu=2,mul=2; `tomex find` lists configurations by
choices. PROGRAM is the name of a program of the study; a name that begins with
`-` must follow `--`. docs/STUDIES.md lists the keys of a study, and
docs/MACHINE.md says what the tables mean.

Numbers on the command line are decimal; in the study's TOML they may be
hexadecimal too, as in 0x10000.

The page is one HTML file, without scripts, that loads nothing. It has a view
for each cycle, with links to the next and the previous one: after a click on
one of them, Enter follows it again. On paper, a view that fits on a sheet isn't
cut in two.

With --blank the tables' cells are empty, to be filled in on paper: the same
page without it is the key.";

const AFTER_LONG_HELP: &str = "Exit status:
  0  the page was written
  1  the study or a program of it was refused, or has no such row or program,
     or its run ends before the first cycle that is asked for
  2  the command line was refused
  3  memory, a file or a device was refused

Examples, in the folder `examples`:
  tomex animate study.toml 4 mul > mul.html
  tomex animate explore.toml 132 matrix --from 1000 --cycles 32 > matrix.html
  tomex animate study.toml 4 mul --blank > sheet.html";

const TEXTS: Texts = Texts {
    about: ABOUT,
    long_about: LONG_ABOUT,
    after_long_help: AFTER_LONG_HELP,
};

const FROM_HELP: &str = "The first cycle shown";

const CYCLES_HELP: &str = "The most cycles shown";

const BLANK_HELP: &str = "Leave the tables' cells empty";

pub(super) fn grammar<'a>(alloc: Global) -> Result<Command<'a>, AllocError>
    ensures { IfOk result (λ c. shape_of c ≡ animate_shape) }
{
    let command = on_one_run(alloc, "animate", TEXTS);
    let command = with_argument(command, number(alloc, "from", CYCLE, "1", FROM_HELP));
    let command = with_argument(command, number(alloc, "cycles", CYCLES, "64", CYCLES_HELP));
    with_argument(command, flag(alloc, "blank", BLANK_HELP))
}

pub(super) fn line_of<'a>(
    alloc: Global,
    matches: &ArgMatches<'a>,
) -> Result<AnimateLine<'a>, LineFault>
    ensures line { IfOk result
        (λ line. IsAnimateAsked (rows_of (found_of matches.now))
        line.run.study.now line.run.config line.run.program.now line.from line.cycles line.blank) }
    ensures refused { IfErr result (IsRefusedIf (IsNoAnimate (rows_of (found_of matches.now)))) }
{
    Ok(AnimateLine {
        run: one_run_of(alloc, matches)?,
        from: number_of(alloc, matches, "from", CYCLE)?,
        cycles: number_of(alloc, matches, "cycles", CYCLES)?,
        blank: flag_of(matches, "blank"),
    })
}
