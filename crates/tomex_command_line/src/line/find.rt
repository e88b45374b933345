//! `find STUDY [CHOICE]..`
ghost use Rattle.std.specs.Prelude.{◌≡◌, IfOk, IfErr, map, string_bytes};
ghost use Rattle.tomex_arguments.specs.Faults.{IsRefusedIf};
ghost use Rattle.tomex_command_line.specs.Grammar.{find_shape};
ghost use Rattle.clap.specs.Simple.{shape_of};
ghost use Rattle.clap.specs.Words.{found_of};
ghost use Rattle.clap.specs.Walk.{rows_of};
ghost use Rattle.tomex_command_line.specs.Values.{IsFindAsked, IsNoFind};

use super::one_run::on_study;
use super::texts::{Texts, with_argument};
use super::values::words;
use clap::{ArgMatches, Command};
use std::alloc::{AllocError, Global};
use tomex_arguments::{LineFault, each_of, word_of};

/// A request for the configurations that have some choices.
#[derive(Drop)]
pub struct FindLine<'a> {
    /// The name of the study's file, as written.
    pub study: &'a str,
    /// The choices, as written.
    pub choices: Vec<String>,
}

const ABOUT: &str = "Finds the numbers of a study's configurations by their parts";

const LONG_ABOUT: &str =
    "Prints the configurations of a study that have all choices, as a table: a line
of names, and then a line for each configuration, by number, with its number,
its cost, and each part in which two configurations of the study differ. Nothing
is run, so there are no cycles. Without choices it lists all configurations.

A choice is NAME=NUMBER, a word of its own. NAME is row, cost, or a name of a
part in the header of `explore`, as alu, mul_latency or buses, also one that has
no column here. NUMBER is written as it is printed. A unit's option is two
choices: mul_units=1 mul_latency=3.

STUDY is a TOML document that names programs, prices, axes and unit options;
its files are read from the current folder. docs/STUDIES.md lists the keys of a
study.";

const AFTER_LONG_HELP: &str = "Exit status:
  0  the table was written
  1  the study or a program of it was refused, or no configuration has a choice,
     or all of them at once
  2  the command line was refused
  3  memory, a file or a device was refused

Examples, in the folder `examples`:
  tomex find explore.toml row=196
  tomex find study.toml alu=2 mul_latency=3

The second prints
  row  cost  alu  mul_latency  buses
    4    85    2            3      1
    5   110    2            3      2";

const TEXTS: Texts = Texts {
    about: ABOUT,
    long_about: LONG_ABOUT,
    after_long_help: AFTER_LONG_HELP,
};

const CHOICE_HELP: &str = "NAME=NUMBER, as alu=4";

pub(super) fn grammar<'a>(alloc: Global) -> Result<Command<'a>, AllocError>
    ensures { IfOk result (λ c. shape_of c ≡ find_shape) }
{
    let command = on_study(alloc, "find", TEXTS);
    with_argument(command, words(alloc, "CHOICE", CHOICE_HELP))
}

pub(super) fn line_of<'a>(
    alloc: Global,
    matches: &ArgMatches<'a>,
) -> Result<FindLine<'a>, LineFault>
    ensures line { IfOk result (λ line. IsFindAsked (rows_of (found_of matches.now))
        line.study.now (map string_bytes line.choices.items)) }
    ensures refused { IfErr result (IsRefusedIf (IsNoFind (rows_of (found_of matches.now)))) }
{
    let study = word_of(alloc, matches, "STUDY")?;
    Ok(FindLine {
        study,
        choices: each_of(alloc, matches, "CHOICE")?,
    })
}
