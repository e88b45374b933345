//! `page STUDY [--workers N] [--choices]`
ghost use Rattle.std.specs.Prelude.{◌≡◌, IfOk, IfErr};
ghost use Rattle.tomex_arguments.specs.Faults.{IsRefusedIf};
ghost use Rattle.tomex_command_line.specs.Grammar.{page_shape};
ghost use Rattle.clap.specs.Simple.{shape_of};
ghost use Rattle.clap.specs.Words.{found_of};
ghost use Rattle.clap.specs.Walk.{rows_of};
ghost use Rattle.tomex_command_line.specs.Values.{IsNoPage, IsPageAsked};

use super::explore::{ExploreLine, line_of as explore_of, on_rows};
use super::texts::{Texts, with_argument};
use super::values::flag;
use clap::{ArgMatches, Command};
use std::alloc::{AllocError, Global};
use tomex_arguments::{LineFault, flag_of};

/// A request for a study's report as a web page.
#[derive(Clone, Copy)]
pub struct PageLine<'a> {
    pub explore: ExploreLine<'a>,
    /// True if it has what choices that the lists lack would bring.
    pub choices: bool,
}

const ABOUT: &str = "Prints a study's report as a web page";

const LONG_ABOUT: &str =
    "Prints a report of a study as a web page, to look at and to send: the picture of
all configurations, the study's lists and programs, the front with each row's
difference from the one above, and a view for each row of the front: what its
parts cost, what a change of one part brings, for which prices it stays on the
front, its stalls and which of them lie on the critical path, each program's
floor, and what its first instructions do. A row is a configuration, by its
number.

With --choices it also has what `choices` prints of choices that the lists lack.
That takes about ten times as long.

The page is one HTML file, without scripts, that loads nothing. It shows at most
64 rows of the front, evenly chosen, and says so.

STUDY is a TOML document that names programs, prices, axes and unit options;
its files are read from the current folder. docs/STUDIES.md lists the keys of a
study.";

const AFTER_LONG_HELP: &str = "Exit status:
  0  the page was written
  1  the study or a program of it was refused
  2  the command line was refused
  3  memory, a thread, a file or a device was refused

Examples, in the folder `examples`:
  tomex page explore.toml --workers 4 > explore.html
  tomex page explore.toml --workers 4 --choices > choices.html";

const TEXTS: Texts = Texts {
    about: ABOUT,
    long_about: LONG_ABOUT,
    after_long_help: AFTER_LONG_HELP,
};

const CHOICES_HELP: &str = "Add what choices that the lists lack would bring";

pub(super) fn grammar<'a>(alloc: Global) -> Result<Command<'a>, AllocError>
    ensures { IfOk result (λ c. shape_of c ≡ page_shape) }
{
    let command = on_rows(alloc, "page", TEXTS);
    with_argument(command, flag(alloc, "choices", CHOICES_HELP))
}

pub(super) fn line_of<'a>(
    alloc: Global,
    matches: &ArgMatches<'a>,
) -> Result<PageLine<'a>, LineFault>
    ensures line { IfOk result (λ line. IsPageAsked (rows_of (found_of matches.now))
        line.explore.study.now line.explore.workers line.choices) }
    ensures refused { IfErr result (IsRefusedIf (IsNoPage (rows_of (found_of matches.now)))) }
{
    Ok(PageLine {
        explore: explore_of(alloc, matches)?,
        choices: flag_of(matches, "choices"),
    })
}
