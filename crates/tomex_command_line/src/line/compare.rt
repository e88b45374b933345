//! `compare STUDY OLD NEW [--workers N] [--csv]`
ghost use Rattle.std.specs.Prelude.{◌≡◌, IfOk, IfErr};
ghost use Rattle.tomex_arguments.specs.Faults.{IsRefusedIf};
ghost use Rattle.tomex_command_line.specs.Grammar.{compare_shape};
ghost use Rattle.clap.specs.Simple.{shape_of};
ghost use Rattle.clap.specs.Words.{found_of};
ghost use Rattle.clap.specs.Walk.{rows_of};
ghost use Rattle.tomex_command_line.specs.Values.{IsCompareAsked, IsNoCompare};

use super::builds::{Builds, builds_of, on_builds};
use super::explore::{ExploreLine, line_of as explore_of, on_rows};
use super::table_or_csv::csv_flag;
use super::texts::{Texts, with_argument};
use clap::{ArgMatches, Command};
use std::alloc::{AllocError, Global};
use tomex_arguments::{LineFault, flag_of};

/// A request for two builds of a program on every configuration.
#[derive(Clone, Copy)]
pub struct CompareLine<'a> {
    pub explore: ExploreLine<'a>,
    pub builds: Builds<'a>,
    /// True if only the second table is printed, as CSV.
    pub csv: bool,
}

const ABOUT: &str = "Prints on which configurations a new build of a program is faster";

const LONG_ABOUT: &str =
    "Prints how many cycles the new build of a program takes beside the old one on
every configuration of the study. OLD and NEW are the names of two programs of
the study; a name that begins with `-` must follow `--`. Their weights and the
study's other programs make no difference.

The first table has a line for each of the two: the instructions that it runs,
its fewest cycles on any configuration and its most, each with the number of
such a configuration. Its last line has the differences in percent of the old
build.

The second table has a line for each group of configurations: all; those on the
front of the old build, of the new one, and of both, if the study had no other
program; and, for each list of the study, those with each choice of it. After
how many there are, it says on how many of them the new build takes fewer
cycles, as many, and more; and the difference in percent of the old build's
cycles where the new one does best, in the middle, and where it does worst.

With --csv only the second table is printed, as CSV: part, value, rows, fewer,
same, more, best, best_row, median, worst, worst_row. A number has no `+`, and
what isn't there is empty.

STUDY is a TOML document that names programs, prices, axes and unit options;
its files are read from the current folder. docs/STUDIES.md lists the keys of a
study, and docs/COMMANDS.md reads such tables.";

const AFTER_LONG_HELP: &str = "Exit status:
  0  the tables were written
  1  the study or a program of it was refused, or has no such program
  2  the command line was refused
  3  memory, a file or a device was refused

Examples, in the folder `examples`:
  tomex compare builds.toml o2 o3

prints two tables that begin with
  program  steps   best  best_row  worst  worst_row
       o2  13140  18197       187  35003          6
       o3  12856  18231       187  33965          6
        %   -2.1   +0.1         -   -2.9          -";

const TEXTS: Texts = Texts {
    about: ABOUT,
    long_about: LONG_ABOUT,
    after_long_help: AFTER_LONG_HELP,
};

const CSV_HELP: &str = "Print the second table as CSV";

pub(super) fn grammar<'a>(alloc: Global) -> Result<Command<'a>, AllocError>
    ensures { IfOk result (λ c. shape_of c ≡ compare_shape) }
{
    let command = on_builds(alloc, on_rows(alloc, "compare", TEXTS));
    with_argument(command, csv_flag(alloc, CSV_HELP))
}

pub(super) fn line_of<'a>(
    alloc: Global,
    matches: &ArgMatches<'a>,
) -> Result<CompareLine<'a>, LineFault>
    ensures line { IfOk result (λ line. IsCompareAsked (rows_of (found_of matches.now))
        line.explore.study.now line.builds.old.now line.builds.new.now line.explore.workers line.csv) }
    ensures refused { IfErr result (IsRefusedIf (IsNoCompare (rows_of (found_of matches.now)))) }
{
    Ok(CompareLine {
        explore: explore_of(alloc, matches)?,
        builds: builds_of(alloc, matches)?,
        csv: flag_of(matches, "csv"),
    })
}
