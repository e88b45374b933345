//! The argument CONFIG: a configuration of a study by its number, or by choices that only it has.
ghost use Rattle.std.specs.Prelude.{◌≡◌, false, IfOk, IfErr};
ghost use Rattle.clap.specs.Words.{found_of, rule_of};
ghost use Rattle.clap.specs.Walk.{rows_of};
ghost use Rattle.tomex_arguments.specs.Faults.{IsRefusedIf};
ghost use Rattle.tomex_command_line.specs.Grammar.{config_rule};
ghost use Rattle.tomex_command_line.specs.Values.{IsConfigAsked, IsNoConfig};

use super::values::word;
use clap::{Arg, ArgMatches};
use std::alloc::Global;
use tomex_arguments::{LineFault, refusal_of, word_of};

/// A configuration, as a line names it.
#[derive(Clone, Copy)]
pub enum ConfigName<'a> {
    /// By its number.
    Number(u32),
    /// By choices that only it has, joined by commas, as written.
    Choices(&'a str),
}

/// The number of the last configuration, if a study has as many as it may.
const LAST_ROW: u32 = 16_383;

const CONFIG_HELP: &str = "The number of the configuration, or its choices";

/// The argument, as `clap` is to read it: any word, which `config_of` tests.
pub fn config_argument<'a>(alloc: Global) -> Arg<'a>
    ensures rule { rule_of result ≡ config_rule }
    ensures global { result.global ≡ false }
{
    word(alloc, "CONFIG", CONFIG_HELP)
}

/// The configuration that a line names: a word with a `=` is choices, any other one a number in decimal.
pub fn config_of<'a>(alloc: Global, matches: &ArgMatches<'a>) -> Result<ConfigName<'a>, LineFault>
    ensures config { IfOk result (IsConfigAsked (rows_of (found_of matches.now))) }
    ensures refused { IfErr result (IsRefusedIf (IsNoConfig (rows_of (found_of matches.now)))) }
{
    let word = word_of(alloc, matches, "CONFIG")?;
    if word.contains('=') {
        return Ok(ConfigName::Choices(word));
    }
    match word.parse::<u32>() {
        Ok(number) if number <= LAST_ROW => Ok(ConfigName::Number(number)),
        _ => Err(refusal_of(alloc, "CONFIG")),
    }
}
