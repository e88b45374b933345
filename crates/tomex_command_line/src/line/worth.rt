//! `worth STUDY CONFIG [--workers N] [--csv]`
ghost use Rattle.std.specs.Prelude.{◌≡◌, IfOk, IfErr};
ghost use Rattle.tomex_arguments.specs.Faults.{IsRefusedIf};
ghost use Rattle.tomex_command_line.specs.Grammar.{worth_shape};
ghost use Rattle.clap.specs.Simple.{shape_of};
ghost use Rattle.clap.specs.Words.{found_of};
ghost use Rattle.clap.specs.Walk.{rows_of};
ghost use Rattle.tomex_command_line.specs.Values.{IsWorthAsked, IsNoWorth};

use super::config::{ConfigName, config_argument, config_of};
use super::explore::{ExploreLine, line_of as explore_of, on_rows};
use super::table_or_csv::table_flag;
use super::texts::{Texts, with_argument};
use clap::{ArgMatches, Command};
use std::alloc::{AllocError, Global};
use tomex_arguments::{LineFault, flag_of};

/// A request for the machines that differ from one in one list.
#[derive(Clone, Copy)]
pub struct WorthLine<'a> {
    pub explore: ExploreLine<'a>,
    pub config: ConfigName<'a>,
    /// True if they are printed as CSV.
    pub csv: bool,
}

const ABOUT: &str = "Prints what one more or one less of a part brings on a configuration";

const LONG_ABOUT: &str =
    "Prints what each change of one list brings on a configuration, in cost and in
cycles: a line for each configuration of the study that differs from it in the
stations of one pool, the option of one kind of unit, the buses or the width,
and in nothing else.

After a line of names comes the configuration itself. In the other lines `cost`
and `cycles` are differences from it, `%` is that of the cycles in percent of
its own, and `rate` is cycles for 1 of cost: what 1 of cost buys if the other
one costs more, and what saving 1 of cost gives away if it costs less. If there
is no such number, the reason is in its place: `better` if the other one costs
no more and takes no more cycles, and is better in one of the two, `worse` if
the same holds the other way round, `same` if neither differs. `front` is `yes`
on the front. A study of several programs has a column for each program's own
cycles.

With --csv the lines after that of the configuration are printed as CSV: part,
from, to, row, cost, cycles, percent, kind, rate, front, and for several
programs NAME_cycles. `kind` is trade, better, worse or same, and only a trade
has a rate; `front` is 1 on the front, else 0. A number has no `+`, and what
isn't there is empty.

STUDY is a TOML document that names programs, prices, axes and unit options;
its files are read from the current folder. CONFIG is a configuration of it:
its number, from 0, as `tomex front` prints it, or choices that only it has,
joined by commas, as in alu=2,mul=2; `tomex find` lists configurations by
choices. docs/STUDIES.md reads such a table.";

const AFTER_LONG_HELP: &str = "Exit status:
  0  the table was written
  1  the study or a program of it was refused, or has no such row
  2  the command line was refused
  3  memory, a file or a device was refused

Examples, in the folder `examples`:
  tomex worth study.toml 4

prints
      part  from   to  row  cost  cycles      %   rate  front
         -     -    -    4    85       8      -      -    yes
       alu     2    1    0   -10      +2  +25.0   0.20    yes
       alu     2    4    8   +20       0      0  worse      -
  unit.mul   1@3  1@6    6   -25      +3  +37.5   0.12    yes
     buses     1    2    5   +25       0      0  worse      -";

const TEXTS: Texts = Texts {
    about: ABOUT,
    long_about: LONG_ABOUT,
    after_long_help: AFTER_LONG_HELP,
};

pub(super) fn grammar<'a>(alloc: Global) -> Result<Command<'a>, AllocError>
    ensures { IfOk result (λ c. shape_of c ≡ worth_shape) }
{
    let command = on_rows(alloc, "worth", TEXTS);
    let command = with_argument(command, config_argument(alloc));
    with_argument(command, table_flag(alloc))
}

pub(super) fn line_of<'a>(
    alloc: Global,
    matches: &ArgMatches<'a>,
) -> Result<WorthLine<'a>, LineFault>
    ensures line { IfOk result (λ line. IsWorthAsked (rows_of (found_of matches.now))
        line.explore.study.now line.config line.explore.workers line.csv) }
    ensures refused { IfErr result (IsRefusedIf (IsNoWorth (rows_of (found_of matches.now)))) }
{
    Ok(WorthLine {
        explore: explore_of(alloc, matches)?,
        config: config_of(alloc, matches)?,
        csv: flag_of(matches, "csv"),
    })
}
