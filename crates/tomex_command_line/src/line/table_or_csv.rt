//! What the commands have in common that print a table of a study's rows, or the same as CSV:
//! `NAME STUDY [--workers N] [--csv]`
ghost use Rattle.std.specs.Prelude.{◌≡◌, false, IfOk, IfErr};
ghost use Rattle.tomex_arguments.specs.Faults.{IsRefusedIf};
ghost use Rattle.tomex_command_line.specs.Grammar.{csv_rule, table_shape};
ghost use Rattle.clap.specs.Simple.{shape_of};
ghost use Rattle.clap.specs.Words.{found_of, rule_of};
ghost use Rattle.clap.specs.Walk.{rows_of};
ghost use Rattle.tomex_command_line.specs.Values.{IsTableAsked, IsNoTable};

use super::explore::{ExploreLine, line_of as explore_of, on_rows};
use super::texts::{Texts, with_argument};
use super::values::flag;
use clap::{Arg, ArgMatches, Command};
use std::alloc::{AllocError, Global};
use tomex_arguments::{LineFault, flag_of};

/// A request for a table of a study's rows.
#[derive(Clone, Copy)]
pub struct TableLine<'a> {
    pub explore: ExploreLine<'a>,
    /// True if it is printed as CSV.
    pub csv: bool,
}

const CSV_HELP: &str = "Print the table as CSV";

/// The flag `--csv`.
pub(super) fn csv_flag<'a>(alloc: Global, help: &'a str) -> Arg<'a>
    ensures rule { rule_of result ≡ csv_rule }
    ensures global { result.global ≡ false }
{
    flag(alloc, "csv", help)
}

/// The flag of a command that prints a single table.
pub(super) fn table_flag<'a>(alloc: Global) -> Arg<'a>
    ensures rule { rule_of result ≡ csv_rule }
    ensures global { result.global ≡ false }
{
    csv_flag(alloc, CSV_HELP)
}

/// The command with this name, which takes a study, a number of workers, and the flag.
pub(super) fn grammar_of<'a>(
    alloc: Global,
    name: &'a str,
    texts: Texts,
) -> Result<Command<'a>, AllocError>
    ensures { IfOk result (λ c. shape_of c ≡ table_shape name.entry.now) }
{
    let command = on_rows(alloc, name, texts);
    with_argument(command, table_flag(alloc))
}

pub(super) fn line_of<'a>(
    alloc: Global,
    matches: &ArgMatches<'a>,
) -> Result<TableLine<'a>, LineFault>
    ensures line { IfOk result (λ line. IsTableAsked (rows_of (found_of matches.now))
        line.explore.study.now line.explore.workers line.csv) }
    ensures refused { IfErr result (IsRefusedIf (IsNoTable (rows_of (found_of matches.now)))) }
{
    Ok(TableLine {
        explore: explore_of(alloc, matches)?,
        csv: flag_of(matches, "csv"),
    })
}
