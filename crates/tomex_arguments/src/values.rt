//! The values of a line, as `clap` read them.
ghost use Rattle.std.specs.Prelude.{◌≡◌, ℕ, List, IfOk, IfErr, map, option_map, string_bytes};
ghost use Rattle.tomex_arguments.specs.Faults.{IsRefusedIf};
ghost use Rattle.clap.specs.Words.{found_of};
ghost use Rattle.clap.specs.Walk.{rows_of};
ghost use Rattle.tomex_arguments.specs.Values.{AreEach, AreWords, IsFlag, IsNumber, IsWord};

use crate::fault::{LineFault, refusal_of};
use clap::ArgMatches;
use std::alloc::{AllocError, Global};

/// The least and the greatest value of a number.
#[derive(Clone, Copy)]
pub struct Bounds {
    pub least: u32,
    pub greatest: u32,
}

/// The same of a number that may need more than 32 bits.
#[derive(Clone, Copy)]
pub struct LongBounds {
    pub least: u64,
    pub greatest: u64,
}

/// The number of 32 bits that an argument was given, or its default.
pub fn number_of(
    alloc: Global,
    matches: &ArgMatches<'_>,
    name: &str,
    bounds: Bounds,
) -> Result<u32, LineFault>
    ensures number { IfOk result
        (λ number. IsNumber (rows_of (found_of matches.now)) name.now bounds.least bounds.greatest number) }
    ensures refused { IfErr result (IsRefusedIf ((number : ℕ)
        → IsNumber (rows_of (found_of matches.now)) name.now bounds.least bounds.greatest number → ⊥)) }
{
    let bounds = LongBounds {
        least: u64::from(bounds.least),
        greatest: u64::from(bounds.greatest),
    };
    Ok(long_number_of(alloc, matches, name, bounds)? as u32)
}

/// The number of 64 bits that an argument was given, or its default. `clap` checks the bounds, but its contract
/// doesn't say so for subcommands, so they are checked again.
pub fn long_number_of(
    alloc: Global,
    matches: &ArgMatches<'_>,
    name: &str,
    bounds: LongBounds,
) -> Result<u64, LineFault>
    ensures number { IfOk result
        (λ number. IsNumber (rows_of (found_of matches.now)) name.now bounds.least bounds.greatest number) }
    ensures refused { IfErr result (IsRefusedIf ((number : ℕ)
        → IsNumber (rows_of (found_of matches.now)) name.now bounds.least bounds.greatest number → ⊥)) }
{
    match matches.get_one::<u64>(name) {
        Some(number) if bounds.least <= number && number <= bounds.greatest => Ok(number),
        _ => Err(refusal_of(alloc, name)),
    }
}

/// A word, as it was written.
pub fn word_of<'a>(
    alloc: Global,
    matches: &ArgMatches<'a>,
    name: &str,
) -> Result<&'a str, LineFault>
    ensures word { IfOk result (λ word. IsWord (rows_of (found_of matches.now)) name.now word.now) }
    ensures refused { IfErr result (IsRefusedIf ((word : List ℕ)
        → IsWord (rows_of (found_of matches.now)) name.now word → ⊥)) }
{
    match matches.get_str(name) {
        Some(text) => Ok(text),
        None => Err(refusal_of(alloc, name)),
    }
}

/// All words that were given, with a space between each two; `None` if there are none.
pub fn words_of(
    alloc: Global,
    matches: &ArgMatches<'_>,
    name: &str,
) -> Result<Option<String>, AllocError>
    ensures { IfOk result (λ words.
        AreWords (rows_of (found_of matches.now)) name.now (option_map string_bytes words)) }
{
    match matches.get_strs(name) {
        Some(words) => Ok(Some(words.join(alloc, " ")?)),
        None => Ok(None),
    }
}

/// Copies of words.
fn copies_of(alloc: Global, words: &[&str]) -> Result<Vec<String>, AllocError>
    ensures { IfOk result (λ copies. map string_bytes copies.items ≡ map (λ word. word.now) words.now) }
{
    let mut copies = Vec::new(alloc);
    for word in words {
        copies.push(String::from_str(alloc, *word)?)?;
    }
    Ok(copies)
}

/// All words that were given, each by itself.
pub fn each_of(
    alloc: Global,
    matches: &ArgMatches<'_>,
    name: &str,
) -> Result<Vec<String>, AllocError>
    ensures { IfOk result (λ words.
        AreEach (rows_of (found_of matches.now)) name.now (map string_bytes words.items)) }
{
    match matches.get_strs(name) {
        Some(words) => copies_of(alloc, words),
        None => Ok(Vec::new(alloc)),
    }
}

/// True if a flag was given.
pub fn flag_of(matches: &ArgMatches<'_>, name: &str) -> bool
    ensures { IsFlag (rows_of (found_of matches.now)) name.now result }
{
    matches.get_flag(name)
}
