//! The first arguments of the commands on a study: the study, and for one of its runs a configuration and a program.
ghost use Rattle.std.specs.Prelude.{◌≡◌, IfOk, IfErr};
ghost use Rattle.clap.specs.Simple.{app_of};
ghost use Rattle.clap.specs.Words.{found_of};
ghost use Rattle.clap.specs.Walk.{rows_of};
ghost use Rattle.tomex_arguments.specs.Faults.{IsRefusedIf};
ghost use Rattle.tomex_command_line.specs.Grammar.{study_app, one_run_app};
ghost use Rattle.tomex_command_line.specs.Values.{IsOneRunAsked, IsNoOneRun};

use super::config::{ConfigName, config_argument, config_of};
use super::texts::{Texts, command_with_texts, with_argument};
use super::values::word;
use clap::{ArgMatches, Command};
use std::alloc::{AllocError, Global};
use tomex_arguments::{LineFault, word_of};

/// The run that a command is asked about: a program on a configuration.
#[derive(Clone, Copy)]
pub struct OneRun<'a> {
    /// The name of the study's file, as written.
    pub study: &'a str,
    pub config: ConfigName<'a>,
    /// The name by which the study calls the program.
    pub program: &'a str,
}

const STUDY_HELP: &str = "The file of the study";

const PROGRAM_HELP: &str = "The name of the program in the study";

/// The command with this name, which takes a study.
pub fn on_study<'a>(alloc: Global, name: &'a str, texts: Texts) -> Result<Command<'a>, AllocError>
    ensures { IfOk result (λ c. app_of c ≡ study_app name.entry.now) }
{
    with_argument(
        Ok(command_with_texts(alloc, name, texts)),
        word(alloc, "STUDY", STUDY_HELP),
    )
}

/// The command with this name, which takes a study, a configuration of it and a program's name.
pub fn on_one_run<'a>(alloc: Global, name: &'a str, texts: Texts) -> Result<Command<'a>, AllocError>
    ensures { IfOk result (λ c. app_of c ≡ one_run_app name.entry.now) }
{
    let command = on_study(alloc, name, texts);
    let command = with_argument(command, config_argument(alloc));
    with_argument(command, word(alloc, "PROGRAM", PROGRAM_HELP))
}

/// The run that a line of such a command names.
pub fn one_run_of<'a>(alloc: Global, matches: &ArgMatches<'a>) -> Result<OneRun<'a>, LineFault>
    ensures run { IfOk result
        (λ run. IsOneRunAsked (rows_of (found_of matches.now)) run.study.now run.config run.program.now) }
    ensures refused { IfErr result (IsRefusedIf (IsNoOneRun (rows_of (found_of matches.now)))) }
{
    Ok(OneRun {
        study: word_of(alloc, matches, "STUDY")?,
        config: config_of(alloc, matches)?,
        program: word_of(alloc, matches, "PROGRAM")?,
    })
}
