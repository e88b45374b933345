//! Directives, by what they say.

ghost use Rattle.std.specs.Prelude.{◌≡◌, ◌-◌, length, take, drop};
ghost use Rattle.tomex_asm_tokens.specs.Reading.{Reads};
ghost use Rattle.tomex_asm_text.specs.Statement.{statement_of};
ghost use Rattle.std.specs.Option.{option_copied};
ghost use Rattle.tomex_asm_text.specs.Directives.{section_name, found_section, section_named, section_at, kind_of};
ghost use Rattle.tomex_asm_text.specs.Directives.{kind_after, kind_at, name_and_value, common_at};
ghost use Rattle.tomex_asm_text.specs.Directives.{directive_at};

use crate::directive::{Directive, section_named};
use crate::forms::Read;
use crate::list::{Element, elements_at};
use crate::operands::{comma_at, next_value};
use crate::reading::{lack, name_at, text_of};
use crate::statement::{Kind, Statement};
use crate::value::{value_at, values_at};
use tomex_asm_tokens::{Cause, Fault, Mark, Sort, Thing, Token, named};

const KINDS: [(&str, Kind); 2] = [("function", Kind::Function), ("object", Kind::Object)];

/// What is between the first byte and the last one.
fn between_quotes(text: &[u8]) -> &[u8]
    ensures { result.now ≡ take (length text.now - 2) (drop 1 text.now) }
{
    match text {
        [_, inner @ .., _] => inner,
        _ => &[],
    }
}

/// The name of a section: a word, or what is between the quotes of a string.
fn section_name(token: Token, text: &[u8]) -> Option<&[u8]>
    ensures { option_copied result ≡ section_name token.sort text.now }
{
    match token.sort {
        Sort::Word => Some(text),
        Sort::Text => Some(between_quotes(text)),
        _ => None,
    }
}

/// The section with this name.
fn found_section<'a>(token: Token, name: &[u8]) -> Read<'a>
    ensures { Reads (λ x. (statement_of x.0, x.1.now)) result (found_section token (section_named name.now)) }
{
    match section_named(name) {
        Some(section) => Ok((Statement::InSection(section), &[])),
        None => Err(Fault {
            at: token.from,
            cause: Cause::NoSection,
        }),
    }
}

/// A section's name, and anything after it.
#[tactic(auto, unfolding(crate::specs::Directives::section_at))]
fn section_at<'a>(line: &[u8], rest: &'a [Token]) -> Read<'a>
    ensures { Reads (λ x. (statement_of x.0, x.1.now)) result (section_at line.now rest.now) }
{
    match rest {
        [] => Err(lack(line, rest, Thing::Name)),
        [token, ..] => match section_name(*token, text_of(line, *token)) {
            Some(name) => found_section(*token, name),
            None => Err(lack(line, rest, Thing::Name)),
        },
    }
}

fn kind_of(line: &[u8], rest: &[Token]) -> Option<Kind>
    ensures { result ≡ kind_of line.now rest.now }
{
    match rest {
        [token, ..] if token.is_word() => named(&KINDS, text_of(line, *token)),
        _ => None,
    }
}

/// A kind after an `@`.
#[tactic(auto, unfolding(crate::specs::Directives::kind_after))]
fn kind_after<'a>(line: &[u8], name: Token, rest: &'a [Token]) -> Read<'a>
    ensures { Reads (λ x. (statement_of x.0, x.1.now)) result (kind_after line.now name rest.now) }
{
    match rest {
        [mark, after @ ..] if mark.is_mark(Mark::At) => match kind_of(line, after) {
            Some(kind) => Ok((Statement::OfKind(name, kind), &after[1..])),
            None => Err(lack(line, after, Thing::Type)),
        },
        _ => Err(lack(line, rest, Thing::Type)),
    }
}

#[tactic(auto, unfolding(crate::specs::Directives::kind_at))]
fn kind_at<'a>(line: &[u8], rest: &'a [Token]) -> Read<'a>
    ensures { Reads (λ x. (statement_of x.0, x.1.now)) result (kind_at line.now rest.now) }
{
    let (name, rest) = name_at(line, rest)?;
    let rest = comma_at(line, rest)?;
    kind_after(line, name, rest)
}

#[tactic(auto, unfolding(crate::specs::Directives::name_and_value))]
fn name_and_value<'a>(
    line: &[u8],
    rest: &'a [Token],
) -> Result<((Token, &'a [Token]), &'a [Token]), Fault>
    ensures { Reads (λ x. ((x.0.0, x.0.1.now), x.1.now)) result (name_and_value line.now rest.now) }
{
    let (name, rest) = name_at(line, rest)?;
    let (value, rest) = next_value(line, rest)?;
    Ok(((name, value), rest))
}

#[tactic(auto, unfolding(crate::specs::Directives::common_at))]
fn common_at<'a>(line: &[u8], rest: &'a [Token]) -> Read<'a>
    ensures { Reads (λ x. (statement_of x.0, x.1.now)) result (common_at line.now rest.now) }
{
    let ((name, size), rest) = name_and_value(line, rest)?;
    let (alignment, rest) = next_value(line, rest)?;
    Ok((Statement::Common(name, size, alignment), rest))
}

/// What a directive says.
pub(crate) fn directive_at<'a>(directive: Directive, line: &[u8], rest: &'a [Token]) -> Read<'a>
    ensures { Reads (λ x. (statement_of x.0, x.1.now)) result (directive_at directive line.now rest.now) }
{
    match directive {
        Directive::InSection(section) => Ok((Statement::InSection(section), rest)),
        Directive::Section => section_at(line, rest),
        Directive::Bind(binding) => {
            let (names, rest) = elements_at(Element::Name, line, rest)?;
            Ok((Statement::Bind(binding, names), rest))
        }
        Directive::OfKind => kind_at(line, rest),
        Directive::Size => {
            let ((name, value), rest) = name_and_value(line, rest)?;
            Ok((Statement::Size(name, value), rest))
        }
        Directive::Define => {
            let ((name, value), rest) = name_and_value(line, rest)?;
            Ok((Statement::Define(name, value), rest))
        }
        Directive::Common => common_at(line, rest),
        Directive::Data(size) => {
            let (values, rest) = values_at(line, rest)?;
            Ok((Statement::Data(size, values), rest))
        }
        Directive::Strings(with_zero) => {
            let (strings, rest) = elements_at(Element::Text, line, rest)?;
            Ok((Statement::Strings(with_zero, strings), rest))
        }
        Directive::Space => {
            let (value, rest) = value_at(line, rest)?;
            Ok((Statement::Space(value), rest))
        }
        Directive::Align(alignment) => {
            let (value, rest) = value_at(line, rest)?;
            Ok((Statement::Align(alignment, value), rest))
        }
        Directive::Ignored => Ok((Statement::Nothing, &[])),
    }
}
