//! `functions STUDY CONFIG OLD NEW`
ghost use Rattle.std.specs.Prelude.{◌≡◌, IfOk, IfErr};
ghost use Rattle.tomex_arguments.specs.Faults.{IsRefusedIf};
ghost use Rattle.tomex_command_line.specs.Grammar.{functions_shape};
ghost use Rattle.clap.specs.Simple.{shape_of};
ghost use Rattle.clap.specs.Words.{found_of};
ghost use Rattle.clap.specs.Walk.{rows_of};
ghost use Rattle.tomex_command_line.specs.Values.{IsFunctionsAsked, IsNoFunctions};

use super::builds::{Builds, builds_of, on_builds};
use super::config::{ConfigName, config_argument, config_of};
use super::one_run::on_study;
use super::texts::{Texts, with_argument};
use clap::{ArgMatches, Command};
use std::alloc::{AllocError, Global};
use tomex_arguments::{LineFault, word_of};

/// A request for what each function takes in two builds of a program.
#[derive(Clone, Copy)]
pub struct FunctionsLine<'a> {
    /// The name of the study's file, as written.
    pub study: &'a str,
    pub config: ConfigName<'a>,
    pub builds: Builds<'a>,
}

const ABOUT: &str = "Prints what each function takes in two builds of a program";

const LONG_ABOUT: &str =
    "Prints, for one of the study's configurations, how many cycles each function
takes in the old build of a program and in the new one, and the difference.

STUDY is a TOML document that names programs, prices, axes and unit options;
its files are read from the current folder. CONFIG is a configuration of it:
its number, from 0, as `tomex front` prints it, or choices that only it has,
joined by commas, as in alu=2,mul=2; `tomex find` lists configurations by
choices. `tomex compare` prints on which the new build does best and worst. OLD
and NEW are the names of two programs of the study; a name that begins with `-`
must follow `--`. Both must be ELF files with symbols.

The report is CSV: a header, and a record for each name of a function that runs
in one of the two builds, with its calls, steps and cycles in the old one and in
the new one, and the new one's cycles less the old one's. Functions of one name
are counted together; one that only one build has takes 0 in the other. The
greatest difference comes first, whichever way it goes. Then come, if there are
any, the steps outside of functions, as `-`; then the drain, which is the cycles
after the last issue, and the total.";

const AFTER_LONG_HELP: &str = "Exit status:
  0  the report was written
  1  the study or a program of it was refused, or has no such row or program,
     or the file of one of the two has no symbols
  2  the command line was refused
  3  memory, a file or a device was refused

Examples, in the folder `examples`:
  tomex functions builds.toml 167 o2 o3

prints a header, and a line for each function, first
  product,1,1,1924,1751,3484,3717,+233";

const TEXTS: Texts = Texts {
    about: ABOUT,
    long_about: LONG_ABOUT,
    after_long_help: AFTER_LONG_HELP,
};

pub(super) fn grammar<'a>(alloc: Global) -> Result<Command<'a>, AllocError>
    ensures { IfOk result (λ c. shape_of c ≡ functions_shape) }
{
    let command = on_study(alloc, "functions", TEXTS);
    let command = with_argument(command, config_argument(alloc));
    on_builds(alloc, command)
}

pub(super) fn line_of<'a>(
    alloc: Global,
    matches: &ArgMatches<'a>,
) -> Result<FunctionsLine<'a>, LineFault>
    ensures line { IfOk result (λ line. IsFunctionsAsked (rows_of (found_of matches.now))
        line.study.now line.config line.builds.old.now line.builds.new.now) }
    ensures refused { IfErr result (IsRefusedIf (IsNoFunctions (rows_of (found_of matches.now)))) }
{
    Ok(FunctionsLine {
        study: word_of(alloc, matches, "STUDY")?,
        config: config_of(alloc, matches)?,
        builds: builds_of(alloc, matches)?,
    })
}
