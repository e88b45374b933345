//! Parts of statements, read from left to right: marks, registers, names.

ghost use Rattle.std.specs.Prelude.{◌≡◌, is_some};
ghost use Rattle.tomex_asm_tokens.specs.Reading.{Reads};
ghost use Rattle.tomex_asm_text.specs.Values.{text_of, end_from, lack, begins_mark, mark_at, register_of, is_register};
ghost use Rattle.tomex_asm_text.specs.Values.{register_at, name_fault, name_at};

use tomex_asm_tokens::{Cause, Fault, Mark, Thing, Token, is_blank, register_named};

/// The bytes of a token of the line.
pub fn text_of(line: &[u8], token: Token) -> &[u8]
    ensures { result.now ≡ text_of line.now token }
{
    let end = token.to.min(line.len());
    let start = token.from.min(end);
    &line[start..end]
}

/// The place right after the last byte that isn't blank.
fn line_end(line: &[u8]) -> usize
    ensures { result ≡ end_from 0 0 line.now }
{
    let mut end = 0;
    for (at, byte) in line.iter().enumerate() {
        if !is_blank(*byte) {
            end = at + 1;
        }
    }
    end
}

/// The refusal of the rest of a line that lacks something.
pub(crate) fn lack(line: &[u8], rest: &[Token], thing: Thing) -> Fault
    ensures { result ≡ lack line.now rest.now thing }
{
    let at = match rest {
        [] => line_end(line),
        [token, ..] => token.from,
    };
    Fault {
        at,
        cause: Cause::Expected(thing),
    }
}

/// True if the rest begins with this mark.
pub(crate) fn begins_mark(rest: &[Token], mark: Mark) -> bool
    ensures { result ≡ begins_mark mark rest.now }
{
    match rest {
        [] => false,
        [token, ..] => token.is_mark(mark),
    }
}

/// What follows a mark.
#[tactic(auto, unfolding(crate::specs::Values::mark_at))]
pub(crate) fn mark_at<'a>(
    mark: Mark,
    thing: Thing,
    line: &[u8],
    rest: &'a [Token],
) -> Result<&'a [Token], Fault>
    ensures { Reads (λ after. after.now) result (mark_at mark thing line.now rest.now) }
{
    match rest {
        [token, after @ ..] if token.is_mark(mark) => Ok(after),
        _ => Err(lack(line, rest, thing)),
    }
}

fn register_of(line: &[u8], token: Token) -> Option<u8>
    ensures { result ≡ register_of line.now token }
{
    if token.is_word() {
        register_named(text_of(line, token))
    } else {
        None
    }
}

/// True if the token is the name of a register.
pub(crate) fn is_register(line: &[u8], token: Token) -> bool
    ensures { result ≡ is_register line.now token }
{
    register_of(line, token).is_some()
}

/// The register with which the rest begins, and what follows it.
#[tactic(auto, unfolding(crate::specs::Values::register_at))]
pub(crate) fn register_at<'a>(line: &[u8], rest: &'a [Token]) -> Result<(u8, &'a [Token]), Fault>
    ensures { Reads (λ x. (x.0, x.1.now)) result (register_at line.now rest.now) }
{
    match rest {
        [] => Err(lack(line, rest, Thing::Register)),
        [token, after @ ..] => match register_of(line, *token) {
            Some(register) => Ok((register, after)),
            None => Err(lack(line, rest, Thing::Register)),
        },
    }
}

/// Why a token can't be the name of a label or of a symbol.
pub(crate) fn name_fault(line: &[u8], token: Token) -> Option<Cause>
    ensures { result ≡ name_fault line.now token }
{
    if !token.is_word() || text_of(line, token) == b".".as_slice() {
        Some(Cause::Expected(Thing::Name))
    } else if is_register(line, token) {
        Some(Cause::RegisterName)
    } else {
        None
    }
}

/// The name with which the rest begins, and what follows it.
#[tactic(auto, unfolding(crate::specs::Values::name_at))]
pub(crate) fn name_at<'a>(line: &[u8], rest: &'a [Token]) -> Result<(Token, &'a [Token]), Fault>
    ensures { Reads (λ x. (x.0, x.1.now)) result (name_at line.now rest.now) }
{
    match rest {
        [] => Err(lack(line, rest, Thing::Name)),
        [token, after @ ..] => match name_fault(line, *token) {
            None => Ok((*token, after)),
            Some(cause) => Err(Fault {
                at: token.from,
                cause,
            }),
        },
    }
}
