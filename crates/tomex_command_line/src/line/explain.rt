//! `explain [REFUSAL]..`
ghost use Rattle.std.specs.Prelude.{◌≡◌, IfOk, option_map, string_bytes};
ghost use Rattle.tomex_command_line.specs.Grammar.{explain_shape};
ghost use Rattle.clap.specs.Simple.{shape_of};
ghost use Rattle.clap.specs.Words.{found_of};
ghost use Rattle.clap.specs.Walk.{rows_of};
ghost use Rattle.tomex_command_line.specs.Values.{IsExplainAsked};

use super::texts::{Texts, command_with_texts, with_argument};
use super::values::words;
use clap::{ArgMatches, Command};
use std::alloc::{AllocError, Global};
use tomex_arguments::words_of;

/// A request for an explanation.
#[derive(Drop)]
pub struct ExplainLine {
    /// The words of a refusal, with a space between each two; without them all refusals are asked for.
    pub refusal: Option<String>,
}

const ABOUT: &str = "Explains a refusal: what it means, its usual causes, and what to do";

const LONG_ABOUT: &str =
    "Prints what a refusal means, its usual causes, and what to do. Without words,
prints a list of all refusals, a line each.

REFUSAL is what tomex reported, with `tomex: ` before it or without, as several
words or as one; names and numbers in it may be left out. A part of a line of
the list is enough, and if no line has all the words, the longest that one has:
if several lines have it, these are printed, and a single one is explained. An
exit status is explained too: `tomex explain 2`. Capitals are as small letters.";

const AFTER_LONG_HELP: &str = "Exit status:
  0  the explanation or the list was written
  1  the words are those of no refusal, and no line of the list has one of them
  2  the command line was refused
  3  memory or a device was refused

Examples:
  tomex explain
  tomex explain image: segment
  tomex explain illegal instruction
  tomex explain 'tomex: fault: illegal at 00000098'";

const TEXTS: Texts = Texts {
    about: ABOUT,
    long_about: LONG_ABOUT,
    after_long_help: AFTER_LONG_HELP,
};

const REFUSAL_HELP: &str = "What tomex reported";

pub(super) fn grammar<'a>(alloc: Global) -> Result<Command<'a>, AllocError>
    ensures { IfOk result (λ c. shape_of c ≡ explain_shape) }
{
    let command = Ok(command_with_texts(alloc, "explain", TEXTS));
    with_argument(command, words(alloc, "REFUSAL", REFUSAL_HELP))
}

pub(super) fn line_of(alloc: Global, matches: &ArgMatches<'_>) -> Result<ExplainLine, AllocError>
    ensures { IfOk result (λ line.
        IsExplainAsked (rows_of (found_of matches.now)) (option_map string_bytes line.refusal)) }
{
    Ok(ExplainLine {
        refusal: words_of(alloc, matches, "REFUSAL")?,
    })
}
