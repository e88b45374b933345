//! The last arguments of the commands on two builds of a program.
ghost use Rattle.std.specs.Prelude.{◌≡◌, IfOk, IfErr, IsOkAnd};
ghost use Rattle.clap.specs.Simple.{app_of};
ghost use Rattle.clap.specs.Words.{App, found_of};
ghost use Rattle.clap.specs.Walk.{rows_of};
ghost use Rattle.tomex_arguments.specs.Faults.{IsRefusedIf};
ghost use Rattle.tomex_command_line.specs.Grammar.{with_builds};
ghost use Rattle.tomex_command_line.specs.Values.{AreBuildsAsked, AreNoBuilds};

use super::texts::with_argument;
use super::values::word;
use clap::{ArgMatches, Command};
use std::alloc::{AllocError, Global};
use tomex_arguments::{LineFault, word_of};

/// Two builds of a program, by the names by which the study calls them.
#[derive(Clone, Copy)]
pub struct Builds<'a> {
    pub old: &'a str,
    pub new: &'a str,
}

const OLD_HELP: &str = "The name of the old build in the study";

const NEW_HELP: &str = "The name of the new build in the study";

/// The command, which takes two builds too.
pub(super) fn on_builds<'a>(
    alloc: Global,
    command: Result<Command<'a>, AllocError>,
) -> Result<Command<'a>, AllocError>
    ensures { IfOk result (λ c. IsOkAnd command.entry (λ before. app_of c ≡ with_builds (app_of before))) }
{
    let command = with_argument(command, word(alloc, "OLD", OLD_HELP));
    with_argument(command, word(alloc, "NEW", NEW_HELP))
}

/// The builds that a line of such a command names.
pub(super) fn builds_of<'a>(
    alloc: Global,
    matches: &ArgMatches<'a>,
) -> Result<Builds<'a>, LineFault>
    ensures builds { IfOk result
        (λ builds. AreBuildsAsked (rows_of (found_of matches.now)) builds.old.now builds.new.now) }
    ensures refused { IfErr result (IsRefusedIf (AreNoBuilds (rows_of (found_of matches.now)))) }
{
    Ok(Builds {
        old: word_of(alloc, matches, "OLD")?,
        new: word_of(alloc, matches, "NEW")?,
    })
}
