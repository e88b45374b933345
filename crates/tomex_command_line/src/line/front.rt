//! `front STUDY [--workers N] [--hull]`
ghost use Rattle.std.specs.Prelude.{◌≡◌, IfOk, IfErr};
ghost use Rattle.tomex_arguments.specs.Faults.{IsRefusedIf};
ghost use Rattle.tomex_command_line.specs.Grammar.{front_shape};
ghost use Rattle.clap.specs.Simple.{shape_of};
ghost use Rattle.clap.specs.Words.{found_of};
ghost use Rattle.clap.specs.Walk.{rows_of};
ghost use Rattle.tomex_command_line.specs.Values.{IsFrontAsked, IsNoFront};

use super::explore::{ExploreLine, line_of as explore_of, on_rows};
use super::texts::{Texts, with_argument};
use super::values::flag;
use clap::{ArgMatches, Command};
use std::alloc::{AllocError, Global};
use tomex_arguments::{LineFault, flag_of};

/// A request for the front as a table.
#[derive(Clone, Copy)]
pub struct FrontLine<'a> {
    pub explore: ExploreLine<'a>,
    /// True if only its hull is printed.
    pub hull: bool,
}

const ABOUT: &str = "Explores a study and prints the front as a table";

const LONG_ABOUT: &str =
    "Explores a study as `explore` does, and prints the front as a table for people:
a line of names, and then a line for each configuration on the front, by cost
and then number, with its number, cost and cycles. `rate` is the number of
cycles saved over the line above for each 1 of added cost. Only parts in which
two configurations of the study differ have a column. A study of several
programs has a column for each program's own cycles, which aren't multiplied by
its weight.

With --hull it prints only the steps worth taking: the configurations that no
mix of a cheaper and a more expensive one beats, which is the front's lower
convex hull. The rate never rises along it. If each 1 of cost has to save x
cycles, take the last line whose rate is at least x; a line without a rate
counts with the line above it.

All columns are aligned on the right, with two spaces between them. `explore`
prints the same front as CSV, with all parts and how each program ends.

STUDY is a TOML document that names programs, prices, axes and unit options;
its files are read from the current folder. docs/STUDIES.md lists the keys of a
study.";

const AFTER_LONG_HELP: &str = "Exit status:
  0  the table was written
  1  the study or a program of it was refused
  2  the command line was refused
  3  memory, a thread, a file or a device was refused

Examples, in the folder `examples`:
  tomex front study.toml

prints
  row  cost  cycles  rate  alu  mul_latency  buses
    2    50      13     -    1            6      1
    6    60      11  0.20    2            6      1
    0    75      10  0.06    1            3      1
    4    85       8  0.20    2            3      1

  tomex front study.toml --hull

prints
  row  cost  cycles  rate  alu  mul_latency  buses
    2    50      13     -    1            6      1
    6    60      11  0.20    2            6      1
    4    85       8  0.12    2            3      1";

const TEXTS: Texts = Texts {
    about: ABOUT,
    long_about: LONG_ABOUT,
    after_long_help: AFTER_LONG_HELP,
};

const HULL_HELP: &str = "Print only the steps worth taking: the front's lower convex hull";

pub(super) fn grammar<'a>(alloc: Global) -> Result<Command<'a>, AllocError>
    ensures { IfOk result (λ c. shape_of c ≡ front_shape) }
{
    let command = on_rows(alloc, "front", TEXTS);
    with_argument(command, flag(alloc, "hull", HULL_HELP))
}

pub(super) fn line_of<'a>(
    alloc: Global,
    matches: &ArgMatches<'a>,
) -> Result<FrontLine<'a>, LineFault>
    ensures line { IfOk result (λ line. IsFrontAsked (rows_of (found_of matches.now))
        line.explore.study.now line.explore.workers line.hull) }
    ensures refused { IfErr result (IsRefusedIf (IsNoFront (rows_of (found_of matches.now)))) }
{
    Ok(FrontLine {
        explore: explore_of(alloc, matches)?,
        hull: flag_of(matches, "hull"),
    })
}
