//! `stalls STUDY CONFIG PROGRAM [--by-pc] [--by-function]`
ghost use Rattle.std.specs.Prelude.{◌≡◌, ◌≤◌, IfOk, IfErr};
ghost use Rattle.tomex_arguments.specs.Faults.{IsRefusedIf};
ghost use Rattle.tomex_command_line.specs.Grammar.{stalls_shape};
ghost use Rattle.clap.specs.Simple.{shape_of};
ghost use Rattle.clap.specs.Words.{found_of};
ghost use Rattle.clap.specs.Walk.{rows_of};
ghost use Rattle.tomex_command_line.specs.Values.{IsStallsAsked, IsNoStalls};

use super::one_run::{OneRun, on_one_run, one_run_of};
use super::texts::{Texts, with_argument};
use super::values::flag;
use clap::{ArgMatches, Command};
use std::alloc::{AllocError, Global};
use tomex_arguments::{LineFault, flag_of};

/// A stalls report that was asked for.
#[derive(Clone, Copy)]
pub struct StallsLine<'a> {
    pub run: OneRun<'a>,
    /// True if the waits are listed by place in the program, and not by part.
    pub by_pc: bool,
    /// True if they are listed by function; with `by_pc`, if each place is listed with its function.
    pub by_function: bool,
}

const ABOUT: &str = "Prints how long a program waits for each part of one configuration";

const LONG_ABOUT: &str = "Prints, for each part of one of the study's configurations, how many there
are, how many of them a program ever uses at once, and for how many cycles
instructions wait for it. A part without stalls is large enough: as few as the
peak, or any number more, take the same cycles.

STUDY is a TOML document that names programs, prices, axes and unit options;
its files are read from the current folder. CONFIG is a configuration of it:
its number, from 0, as `tomex front` prints it, or choices that only it has,
joined by commas, as in alu=2,mul=2; `tomex find` lists configurations by
choices. PROGRAM is the name of a program of the study; a name that begins with
`-` must follow `--`. docs/STUDIES.md lists the keys of a study, and
docs/MACHINE.md says how to read the report.

Numbers on the command line are decimal; in the study's TOML they may be
hexadecimal too, as in 0x10000.

The report is CSV: a header, and a record for each part: the stations of each
pool, the units of each kind, the buses and the issue width, with their count,
peak and stalls. Then come the cycles that instructions wait for what is no
part: an older branch, an operand, the address of a load or store, an older
access to the same bytes; then the drain, which is the cycles after the last
issue, and the total. A cycle in which an instruction waits counts once, for
the first thing that it lacks. The last four records are the floors: the cycles
that the program takes, with these latencies, if it issues 1, 2, 3 or 4
instructions a cycle and never waits for a station, a unit or a bus. No machine
with these latencies and at most that issue width takes fewer.

With --by-pc the same cycles are listed by place in the program: a record for
each instruction, with how many times it ran, how many cycles of the total are
its own, and how long it waited for what.

With --by-function they are listed by function, the most cycles first, with how
many times each was called. The program must be an ELF file with symbols. With
both options, each instruction is listed with its function.";

const AFTER_LONG_HELP: &str = "Exit status:
  0  the report was written
  1  the study or a program of it was refused, or has no such row or program,
     or the program's file has no symbols, with --by-function
  2  the command line was refused
  3  memory, a file or a device was refused

Examples, in the folder `examples`:
  tomex stalls explore.toml 132 matrix

prints a line for each part, such as
  mul,1,1,10944
of which there is one, for which instructions wait 10,944 cycles; and

  tomex stalls explore.toml 132 matrix --by-pc

prints a line for each instruction, such as
  000112e0,\"mul x22,x23,x9\",144,1152,0,144,1008,0,0,0,0,0
and

  tomex stalls explore.toml 132 matrix --by-function

prints a line for each function, such as
  000110d4,_start,1,6625,20824,336,6456,14031,13740,2180,0,144,0";

const TEXTS: Texts = Texts {
    about: ABOUT,
    long_about: LONG_ABOUT,
    after_long_help: AFTER_LONG_HELP,
};

const BY_PC_HELP: &str = "List the waits by place in the program";

const BY_FUNCTION_HELP: &str = "List the waits by function";

pub(super) fn grammar<'a>(alloc: Global) -> Result<Command<'a>, AllocError>
    ensures { IfOk result (λ c. shape_of c ≡ stalls_shape) }
{
    let command = on_one_run(alloc, "stalls", TEXTS);
    let command = with_argument(command, flag(alloc, "by-pc", BY_PC_HELP));
    with_argument(command, flag(alloc, "by-function", BY_FUNCTION_HELP))
}

pub(super) fn line_of<'a>(
    alloc: Global,
    matches: &ArgMatches<'a>,
) -> Result<StallsLine<'a>, LineFault>
    ensures line { IfOk result (λ line. IsStallsAsked (rows_of (found_of matches.now))
        line.run.study.now line.run.config line.run.program.now line.by_pc line.by_function) }
    ensures refused { IfErr result (IsRefusedIf (IsNoStalls (rows_of (found_of matches.now)))) }
{
    Ok(StallsLine {
        run: one_run_of(alloc, matches)?,
        by_pc: flag_of(matches, "by-pc"),
        by_function: flag_of(matches, "by-function"),
    })
}
