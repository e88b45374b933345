//! Operands, and the parts of them.

ghost use Rattle.std.specs.Prelude.{◌≡◌};
ghost use Rattle.tomex_asm_tokens.specs.Reading.{Reads};
ghost use Rattle.tomex_asm_text.specs.Statement.{immediate_of};
ghost use Rattle.tomex_asm_text.specs.Instructions.{begins_register, comma_at, next_register, next_value};
ghost use Rattle.tomex_asm_text.specs.Instructions.{two_registers};
ghost use Rattle.tomex_asm_text.specs.Instructions.{three_registers, is_text, second_is, part_at, immediate_at};
ghost use Rattle.tomex_asm_text.specs.Instructions.{base_at};
ghost use Rattle.tomex_asm_text.specs.Instructions.{memory_at, place_of, after_value, place_at};

use crate::reading::{begins_mark, is_register, lack, mark_at, register_at, text_of};
use crate::statement::Immediate;
use crate::value::value_at;
use tomex_asm_tokens::{Fault, Mark, Thing, Token};

/// Where a load reads, or a store writes.
#[derive(Clone, Copy)]
pub enum Place<'a> {
    /// An offset from a base register.
    Memory(Immediate<'a>, u8),
    /// An address.
    Address(&'a [Token]),
}

/// True if the rest begins with a register.
pub(crate) fn begins_register(line: &[u8], rest: &[Token]) -> bool
    ensures { result ≡ begins_register line.now rest.now }
{
    match rest {
        [] => false,
        [token, ..] => is_register(line, *token),
    }
}

pub(crate) fn comma_at<'a>(line: &[u8], rest: &'a [Token]) -> Result<&'a [Token], Fault>
    ensures { Reads (λ after. after.now) result (comma_at line.now rest.now) }
{
    mark_at(Mark::Comma, Thing::Comma, line, rest)
}

#[tactic(auto, unfolding(crate::specs::Instructions::next_register))]
pub(crate) fn next_register<'a>(line: &[u8], rest: &'a [Token]) -> Result<(u8, &'a [Token]), Fault>
    ensures { Reads (λ x. (x.0, x.1.now)) result (next_register line.now rest.now) }
{
    let rest = comma_at(line, rest)?;
    register_at(line, rest)
}

#[tactic(auto, unfolding(crate::specs::Instructions::next_value))]
pub(crate) fn next_value<'a>(
    line: &[u8],
    rest: &'a [Token],
) -> Result<(&'a [Token], &'a [Token]), Fault>
    ensures { Reads (λ x. (x.0.now, x.1.now)) result (next_value line.now rest.now) }
{
    let rest = comma_at(line, rest)?;
    value_at(line, rest)
}

#[tactic(auto, unfolding(crate::specs::Instructions::two_registers))]
pub(crate) fn two_registers<'a>(
    line: &[u8],
    rest: &'a [Token],
) -> Result<((u8, u8), &'a [Token]), Fault>
    ensures { Reads (λ x. (x.0, x.1.now)) result (two_registers line.now rest.now) }
{
    let (first, rest) = register_at(line, rest)?;
    let (second, rest) = next_register(line, rest)?;
    Ok(((first, second), rest))
}

#[tactic(auto, unfolding(crate::specs::Instructions::three_registers))]
pub(crate) fn three_registers<'a>(
    line: &[u8],
    rest: &'a [Token],
) -> Result<((u8, u8, u8), &'a [Token]), Fault>
    ensures { Reads (λ x. (x.0, x.1.now)) result (three_registers line.now rest.now) }
{
    let (first, rest) = register_at(line, rest)?;
    let (second, rest) = next_register(line, rest)?;
    let (third, rest) = next_register(line, rest)?;
    Ok(((first, second, third), rest))
}

/// True if the token is this word.
pub(crate) fn is_text(word: &[u8], line: &[u8], token: Token) -> bool
    ensures { result ≡ is_text word.now line.now token }
{
    token.is_word() && text_of(line, token) == word
}

/// True if the token after the first one is this word.
pub(crate) fn second_is(word: &[u8], line: &[u8], rest: &[Token]) -> bool
    ensures { result ≡ second_is word.now line.now rest.now }
{
    match rest {
        [_, token, ..] => is_text(word, line, *token),
        _ => false,
    }
}

/// The value in parentheses after `%` and a word, where the rest begins with a `%`.
#[tactic(auto, unfolding(crate::specs::Instructions::part_at))]
pub(crate) fn part_at<'a>(
    word: &[u8],
    line: &[u8],
    rest: &'a [Token],
) -> Result<(&'a [Token], &'a [Token]), Fault>
    ensures { Reads (λ x. (x.0.now, x.1.now)) result (part_at word.now line.now rest.now) }
{
    match rest {
        [_, token, after @ ..] if is_text(word, line, *token) => {
            let open = mark_at(Mark::Open, Thing::Open, line, after)?;
            let (value, close) = value_at(line, open)?;
            Ok((value, mark_at(Mark::Close, Thing::Close, line, close)?))
        }
        _ => Err(lack(line, rest, Thing::Value)),
    }
}

#[tactic(auto, unfolding(crate::specs::Instructions::immediate_at))]
pub(crate) fn immediate_at<'a>(
    line: &[u8],
    rest: &'a [Token],
) -> Result<(Immediate<'a>, &'a [Token]), Fault>
    ensures { Reads (λ x. (immediate_of x.0, x.1.now)) result (immediate_at line.now rest.now) }
{
    if begins_mark(rest, Mark::Percent) {
        let (value, rest) = part_at(b"lo", line, rest)?;
        Ok((Immediate::Low(value), rest))
    } else {
        let (value, rest) = value_at(line, rest)?;
        Ok((Immediate::Plain(value), rest))
    }
}

/// A register in parentheses.
#[tactic(auto, unfolding(crate::specs::Instructions::base_at))]
pub(crate) fn base_at<'a>(line: &[u8], rest: &'a [Token]) -> Result<(u8, &'a [Token]), Fault>
    ensures { Reads (λ x. (x.0, x.1.now)) result (base_at line.now rest.now) }
{
    let open = mark_at(Mark::Open, Thing::Open, line, rest)?;
    let (base, close) = register_at(line, open)?;
    Ok((base, mark_at(Mark::Close, Thing::Close, line, close)?))
}

/// An offset, which may be left out, and a base register in parentheses.
#[tactic(auto, unfolding(crate::specs::Instructions::memory_at))]
pub(crate) fn memory_at<'a>(
    line: &[u8],
    rest: &'a [Token],
) -> Result<((Immediate<'a>, u8), &'a [Token]), Fault>
    ensures { Reads (λ x. ((immediate_of x.0.0, x.0.1), x.1.now)) result (memory_at line.now rest.now) }
{
    if begins_mark(rest, Mark::Open) {
        let (base, rest) = base_at(line, rest)?;
        Ok(((Immediate::Fixed(0), base), rest))
    } else {
        let (offset, rest) = immediate_at(line, rest)?;
        let (base, rest) = base_at(line, rest)?;
        Ok(((offset, base), rest))
    }
}

/// The place that begins with a value: a base register in parentheses may follow it.
#[tactic(auto, unfolding(crate::specs::Instructions::after_value))]
fn after_value<'a>(
    line: &[u8],
    value: &'a [Token],
    rest: &'a [Token],
) -> Result<(Place<'a>, &'a [Token]), Fault>
    ensures { Reads (λ x. (place_of x.0, x.1.now)) result (after_value line.now value.now rest.now) }
{
    if begins_mark(rest, Mark::Open) {
        let (base, rest) = base_at(line, rest)?;
        Ok((Place::Memory(Immediate::Plain(value), base), rest))
    } else {
        Ok((Place::Address(value), rest))
    }
}

/// A memory operand, or an address. A value is an offset if a `(` comes after it.
#[tactic(auto, unfolding(crate::specs::Instructions::place_at))]
pub(crate) fn place_at<'a>(
    line: &[u8],
    rest: &'a [Token],
) -> Result<(Place<'a>, &'a [Token]), Fault>
    ensures { Reads (λ x. (place_of x.0, x.1.now)) result (place_at line.now rest.now) }
{
    if begins_mark(rest, Mark::Open) || begins_mark(rest, Mark::Percent) {
        let ((offset, base), rest) = memory_at(line, rest)?;
        Ok((Place::Memory(offset, base), rest))
    } else {
        let (value, rest) = value_at(line, rest)?;
        after_value(line, value, rest)
    }
}
