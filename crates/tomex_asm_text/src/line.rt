//! From a line to what it says.

ghost use Rattle.std.specs.Prelude.{◌≡◌, ◌≤◌, IfOk, length};
ghost use Rattle.tomex_asm_tokens.specs.Reading.{Reads};
ghost use Rattle.tomex_asm_text.specs.Statement.{statement_of};
ghost use Rattle.tomex_asm_text.specs.Values.{place_of};
ghost use Rattle.tomex_asm_text.specs.Lines.{line_of, label_fault, labels_from, labels_at, of_word, statement_at};
ghost use Rattle.tomex_asm_text.specs.Lines.{line_from};

use crate::directive::directive_named;
use crate::directives::directive_at;
use crate::forms::Read;
use crate::mnemonic::mnemonic_named;
use crate::pseudo::instruction_at;
use crate::reading::{lack, name_fault, text_of};
use crate::statement::Statement;
use tomex_asm_tokens::{Cause, Fault, Mark, Sort, Thing, Token};

/// A line: its labels with their colons, and its statement.
#[derive(Clone, Copy)]
pub struct Line<'a> {
    pub labels: &'a [Token],
    /// The place of the statement, in bytes from the line's beginning.
    pub at: usize,
    pub statement: Statement<'a>,
}

/// Why a token can't be a label.
fn label_fault(line: &[u8], token: Token) -> Option<Cause>
    ensures { result ≡ label_fault line.now token }
{
    match token.sort {
        Sort::Decimal(_) => None,
        _ => name_fault(line, token),
    }
}

/// The number of tokens of the labels and their colons.
fn labels_size(line: &[u8], tokens: &[Token]) -> Result<usize, Fault>
    ensures value { result ≡ labels_from line.now tokens.now }
    ensures within { IfOk result (λ size. size ≤ length tokens.now) }
{
    let mut size = 0;
    while let [label, colon, ..] = &tokens[size..] {
        if !colon.is_mark(Mark::Colon) {
            break;
        }
        if let Some(cause) = label_fault(line, *label) {
            return Err(Fault {
                at: label.from,
                cause,
            });
        }
        size += 2;
    }
    Ok(size)
}

/// The labels, and what follows them.
#[tactic(auto, unfolding(crate::specs::Lines::labels_at))]
fn labels_at<'a>(line: &[u8], tokens: &'a [Token]) -> Result<(&'a [Token], &'a [Token]), Fault>
    ensures { Reads (λ x. (x.0.now, x.1.now)) result (labels_at line.now tokens.now) }
{
    Ok(tokens.split_at(labels_size(line, tokens)?))
}

/// The statement that begins with a word: a directive if the word begins with a `.`.
fn of_word<'a>(line: &[u8], token: Token, rest: &'a [Token], word: &[u8]) -> Read<'a>
    ensures { Reads (λ x. (statement_of x.0, x.1.now)) result (of_word line.now token rest.now word.now) }
{
    if word.first().copied().unwrap_or(0) == b'.' {
        match directive_named(word) {
            Some(directive) => directive_at(directive, line, rest),
            None => Err(Fault {
                at: token.from,
                cause: Cause::NoDirective,
            }),
        }
    } else {
        match mnemonic_named(word) {
            Some(mnemonic) => instruction_at(mnemonic, line, rest),
            None => Err(Fault {
                at: token.from,
                cause: Cause::NoInstruction,
            }),
        }
    }
}

/// The statement with which the rest begins, and what follows it.
#[tactic(auto, unfolding(crate::specs::Lines::statement_at))]
fn statement_at<'a>(line: &[u8], rest: &'a [Token]) -> Read<'a>
    ensures { Reads (λ x. (statement_of x.0, x.1.now)) result (statement_at line.now rest.now) }
{
    match rest {
        [] => Ok((Statement::Nothing, rest)),
        [token, after @ ..] if token.is_word() => of_word(
            line,
            *token,
            after,
            text_of(line, *token),
        ),
        [token, ..] => Err(Fault {
            at: token.from,
            cause: Cause::Expected(Thing::Instruction),
        }),
    }
}

/// Where the rest of the line begins.
fn place_of(line: &[u8], rest: &[Token]) -> usize
    ensures { result ≡ place_of line.now rest.now }
{
    lack(line, rest, Thing::EndOfLine).at
}

/// What the tokens of a line say.
#[tactic(auto, unfolding(crate::specs::Lines::line_from))]
pub fn line_at<'a>(line: &[u8], tokens: &'a [Token]) -> Result<Line<'a>, Fault>
    ensures { Reads line_of result (line_from line.now tokens.now) }
{
    let (labels, after) = labels_at(line, tokens)?;
    let (statement, rest) = statement_at(line, after)?;
    if !rest.is_empty() {
        return Err(lack(line, rest, Thing::EndOfLine));
    }
    Ok(Line {
        labels,
        at: place_of(line, after),
        statement,
    })
}
