//! The values that a command takes, as `clap` is to read them.
ghost use Rattle.std.specs.Prelude.{◌≡◌, false, pos};
ghost use Rattle.tomex_command_line.specs.Grammar.{flag_rule, long_numeral_rule, numeral_rule, option_rule};
ghost use Rattle.tomex_command_line.specs.Grammar.{word_rule, words_rule};
ghost use Rattle.clap.specs.Words.{rule_of};
ghost use Rattle.clap.specs.declared.builder.value_parser.ValueParser.TheVariants.{Signed};

use clap::builder::ValueParser;
use clap::{Arg, ArgAction, value_parser};
use std::alloc::Global;
use tomex_arguments::{Bounds, LongBounds};

/// A parser of decimal numbers within the bounds.
fn within<'a>(bounds: Bounds) -> ValueParser<'a>
    ensures { result ≡ Signed (pos bounds.least) (pos bounds.greatest) }
{
    value_parser!(u32).range(i64::from(bounds.least)..=i64::from(bounds.greatest))
}

/// An option `--NAME N` with a decimal number.
pub fn number<'a>(
    alloc: Global,
    name: &'a str,
    bounds: Bounds,
    default: &'a str,
    help: &'a str,
) -> Arg<'a>
    ensures rule { rule_of result
        ≡ option_rule name.entry.now bounds.least bounds.greatest default.entry.now }
    ensures global { result.global ≡ false }
{
    Arg::new(alloc, name)
        .long(name)
        .value_name("N")
        .value_parser(within(bounds))
        .default_value(default)
        .help(help)
}

/// A required decimal number, given by position.
pub fn numeral<'a>(alloc: Global, name: &'a str, bounds: Bounds, help: &'a str) -> Arg<'a>
    ensures rule { rule_of result ≡ numeral_rule name.entry.now bounds.least bounds.greatest }
    ensures global { result.global ≡ false }
{
    Arg::new(alloc, name)
        .required(true)
        .value_parser(within(bounds))
        .help(help)
}

/// A required decimal number that may need more than 32 bits, given by position.
pub fn long_numeral<'a>(alloc: Global, name: &'a str, bounds: LongBounds, help: &'a str) -> Arg<'a>
    ensures rule { rule_of result ≡ long_numeral_rule name.entry.now bounds.least bounds.greatest }
    ensures global { result.global ≡ false }
{
    Arg::new(alloc, name)
        .required(true)
        .value_parser(ValueParser::Unsigned(bounds.least, bounds.greatest))
        .help(help)
}

/// A flag `--NAME`, which takes no value.
pub fn flag<'a>(alloc: Global, name: &'a str, help: &'a str) -> Arg<'a>
    ensures rule { rule_of result ≡ flag_rule name.entry.now }
    ensures global { result.global ≡ false }
{
    Arg::new(alloc, name)
        .long(name)
        .action(ArgAction::SetTrue)
        .help(help)
}

/// A required word.
pub fn word<'a>(alloc: Global, name: &'a str, help: &'a str) -> Arg<'a>
    ensures rule { rule_of result ≡ word_rule name.entry.now }
    ensures global { result.global ≡ false }
{
    Arg::new(alloc, name).required(true).help(help)
}

/// Optional words.
pub fn words<'a>(alloc: Global, name: &'a str, help: &'a str) -> Arg<'a>
    ensures rule { rule_of result ≡ words_rule name.entry.now }
    ensures global { result.global ≡ false }
{
    Arg::new(alloc, name).action(ArgAction::Append).help(help)
}
