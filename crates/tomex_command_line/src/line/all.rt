//! `all STUDY`
ghost use Rattle.std.specs.Prelude.{◌≡◌, IfOk, IfErr};
ghost use Rattle.tomex_arguments.specs.Faults.{IsRefusedIf};
ghost use Rattle.tomex_command_line.specs.Grammar.{all_shape};
ghost use Rattle.clap.specs.Simple.{shape_of};
ghost use Rattle.clap.specs.Words.{found_of};
ghost use Rattle.clap.specs.Walk.{rows_of};
ghost use Rattle.tomex_command_line.specs.Values.{IsAllAsked, IsNoAll};

use super::one_run::on_study;
use super::texts::Texts;
use clap::{ArgMatches, Command};
use std::alloc::{AllocError, Global};
use tomex_arguments::{LineFault, word_of};

/// A request for a front report of rows that are all run to their ends.
#[derive(Clone, Copy)]
pub struct AllLine<'a> {
    /// The name of the study's file, as written.
    pub study: &'a str,
}

const ABOUT: &str = "Runs every configuration of a study to its end and prints the front";

const LONG_ABOUT: &str =
    "Runs every program of a study on every configuration to its end, and prints
the front: the configurations that no other one dominates. One configuration
dominates another if it costs no more, takes no more cycles, and is better in
one of the two.

STUDY is a TOML document that names programs, prices, axes and unit options;
its files are read from the current folder. docs/STUDIES.md lists the keys of a
study.

The report is CSV, byte for byte that of `explore`, which gives up
configurations early if they can't be on the front, and so is usually faster.";

const AFTER_LONG_HELP: &str = "Exit status:
  0  the report was written
  1  the study or a program of it was refused
  2  the command line was refused
  3  memory, a file or a device was refused

Example, in the folder `examples`:
  tomex all explore.toml

prints a header, and for each configuration on the front a line for each
program, such as
  4,101,54153,1,1,1,1,1,1,1,1,1,8,1,1,1,2,1,1,1,matrix,6625,22408,ebreak,..";

const TEXTS: Texts = Texts {
    about: ABOUT,
    long_about: LONG_ABOUT,
    after_long_help: AFTER_LONG_HELP,
};

pub(super) fn grammar<'a>(alloc: Global) -> Result<Command<'a>, AllocError>
    ensures { IfOk result (λ c. shape_of c ≡ all_shape) }
{
    on_study(alloc, "all", TEXTS)
}

pub(super) fn line_of<'a>(alloc: Global, matches: &ArgMatches<'a>) -> Result<AllLine<'a>, LineFault>
    ensures line { IfOk result
        (λ line. IsAllAsked (rows_of (found_of matches.now)) line.study.now) }
    ensures refused { IfErr result (IsRefusedIf (IsNoAll (rows_of (found_of matches.now)))) }
{
    Ok(AllLine {
        study: word_of(alloc, matches, "STUDY")?,
    })
}
