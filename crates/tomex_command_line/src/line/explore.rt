//! `explore STUDY [--workers N]`, and the arguments of other commands that explore a study.
ghost use Rattle.std.specs.Prelude.{◌≡◌, ◌≤◌, IfOk, IfErr};
ghost use Rattle.tomex_arguments.specs.Faults.{IsRefusedIf};
ghost use Rattle.tomex_command_line.specs.Grammar.{explore_shape, exploring_app, exploring_shape};
ghost use Rattle.clap.specs.Simple.{app_of, shape_of};
ghost use Rattle.clap.specs.Words.{found_of};
ghost use Rattle.clap.specs.Walk.{rows_of};
ghost use Rattle.tomex_command_line.specs.Values.{IsExploreAsked, IsNoExplore};

use super::one_run::on_study;
use super::texts::{Texts, with_argument};
use super::values::number;
use clap::{ArgMatches, Command};
use std::alloc::{AllocError, Global};
use tomex_arguments::{Bounds, LineFault, number_of, word_of};

const WORKERS: Bounds = Bounds {
    least: 1,
    greatest: 32,
};

/// A request for all rows of a study: the front, or something else that is printed of them.
#[derive(Clone, Copy)]
pub struct ExploreLine<'a> {
    /// The name of the study's file, as written.
    pub study: &'a str,
    /// The number of workers that share the rows.
    pub workers: u32,
    pub ghost workers_from: { 1 ≤ workers },
    pub ghost workers_to: { workers ≤ 32 },
}

const ABOUT: &str = "Explores the configurations of a study and prints the front";

const LONG_ABOUT: &str =
    "Runs the programs of a study on its configurations, and prints the front: the
configurations that no other one dominates. One configuration dominates another
if it costs no more, takes no more cycles, and is better in one of the two.

A program isn't evaluated again if its cycles follow from those on an earlier
configuration. Every 1,024 cycles of a run tomex looks whether a finished
configuration that costs no more has taken fewer cycles; if so, it gives this
one up. The report is, byte for byte, that of `all`, which runs every
configuration to its end. The number of workers doesn't change it.

STUDY is a TOML document that names programs, prices, axes and unit options;
its files are read from the current folder. docs/STUDIES.md lists the keys of a
study.

The report is CSV: a header, and for each configuration on the front, by cost
and then number, a record for each program: the configuration's number, cost,
cycles and parts, then the program's name, steps and cycles, how it ended, its
registers that aren't zero, and the bytes of memory that the study watches. `-`
means that there are none.";

const AFTER_LONG_HELP: &str = "Exit status:
  0  the report was written
  1  the study or a program of it was refused
  2  the command line was refused
  3  memory, a thread, a file or a device was refused

Examples, in the folder `examples`:
  tomex explore explore.toml
  tomex explore explore.toml --workers 4

print a header, and for each configuration on the front a line for each
program, such as
  4,101,54153,1,1,1,1,1,1,1,1,1,8,1,1,1,2,1,1,1,matrix,6625,22408,ebreak,..";

const TEXTS: Texts = Texts {
    about: ABOUT,
    long_about: LONG_ABOUT,
    after_long_help: AFTER_LONG_HELP,
};

const WORKERS_HELP: &str = "Workers that share the configurations, 1 to 32";

pub(super) fn grammar<'a>(alloc: Global) -> Result<Command<'a>, AllocError>
    ensures { IfOk result (λ c. shape_of c ≡ explore_shape) }
{
    study_and_workers(alloc, "explore", TEXTS)
}

/// The command with this name, which takes a study and a number of workers, and may take more.
pub(super) fn on_rows<'a>(
    alloc: Global,
    name: &'a str,
    texts: Texts,
) -> Result<Command<'a>, AllocError>
    ensures { IfOk result (λ c. app_of c ≡ exploring_app name.entry.now) }
{
    let command = on_study(alloc, name, texts);
    with_argument(
        command,
        number(alloc, "workers", WORKERS, "1", WORKERS_HELP),
    )
}

/// The command with this name, which takes only a study and a number of workers.
pub(super) fn study_and_workers<'a>(
    alloc: Global,
    name: &'a str,
    texts: Texts,
) -> Result<Command<'a>, AllocError>
    ensures { IfOk result (λ c. shape_of c ≡ exploring_shape name.entry.now) }
{
    on_rows(alloc, name, texts)
}

pub(super) fn line_of<'a>(
    alloc: Global,
    matches: &ArgMatches<'a>,
) -> Result<ExploreLine<'a>, LineFault>
    ensures line { IfOk result
        (λ line. IsExploreAsked (rows_of (found_of matches.now)) line.study.now line.workers) }
    ensures refused { IfErr result (IsRefusedIf (IsNoExplore (rows_of (found_of matches.now)))) }
{
    Ok(ExploreLine {
        study: word_of(alloc, matches, "STUDY")?,
        workers: number_of(alloc, matches, "workers", WORKERS)?,
    })
}
