//! Characters and strings.

ghost use Rattle.std.specs.Prelude.{◌≡◌, ◌+◌, ◌<◌, ◌≤◌, ◌^◌, length};
ghost use Rattle.tomex_asm_tokens.specs.Tokens.{escaped, closed, character_at, octal_length, escape_length, string_end};
ghost use Rattle.tomex_asm_tokens.specs.Characters.{double_quote};

use crate::cause::{Cause, Fault};
use crate::characters::{is_octal, is_plain};
use crate::token::{Sort, Token};

/// What `\` and this byte stand for in quotes.
pub(crate) fn escaped(around: u8, byte: u8) -> Option<u8>
    ensures { result ≡ escaped around byte }
{
    match byte {
        b'n' => Some(b'\n'),
        b't' => Some(b'\t'),
        b'r' => Some(b'\r'),
        b'b' => Some(8),
        b'f' => Some(12),
        _ => if byte == b'\\' || byte == around {
            Some(byte)
        } else {
            None
        },
    }
}

/// A character of `size` bytes, if the byte after it is a quote.
fn closed(at: usize, size: usize, character: u8, rest: &[u8]) -> Result<Token, Fault>
    requires { at + size < 2 ^ 64 }
    ensures { result ≡ closed at size character rest.now }
{
    match rest {
        [b'\'', ..] => Ok(Token {
            sort: Sort::Number(u32::from(character)),
            from: at,
            to: at + size,
        }),
        _ => Err(Fault {
            at,
            cause: Cause::BadCharacter,
        }),
    }
}

/// The character whose first quote is at a place; `rest` is what follows this quote.
pub(crate) fn character_at(at: usize, rest: &[u8]) -> Result<Token, Fault>
    requires { at + 4 < 2 ^ 64 }
    ensures { result ≡ character_at at rest.now }
{
    let refused = Fault {
        at,
        cause: Cause::BadCharacter,
    };
    let escape = Fault {
        at: at + 1,
        cause: Cause::BadEscape,
    };
    match rest {
        [] => Err(refused),
        [b'\\'] => Err(escape),
        [b'\\', byte, after @ ..] => match escaped(b'\'', *byte) {
            None => Err(escape),
            Some(character) => closed(at, 4, character, after),
        },
        [_] => Err(refused),
        [byte, after @ ..] => if is_plain(*byte) {
            closed(at, 3, *byte, after)
        } else {
            Err(refused)
        },
    }
}

/// The length of the octal number that the bytes begin with: one to three digits, up to 377. 0 if there is none.
pub(crate) fn octal_length(bytes: &[u8]) -> usize
    ensures value { result ≡ octal_length bytes.now }
    ensures small { result ≤ 3 }
{
    match bytes {
        [a, b, c, ..] if is_octal(*a) && is_octal(*b) && is_octal(*c) => if *a <= b'3' {
            3
        } else {
            0
        },
        [a, b, ..] if is_octal(*a) && is_octal(*b) => 2,
        [a, ..] if is_octal(*a) => 1,
        _ => 0,
    }
}

/// How many bytes of an escape follow its `\` in a string; 0 if it isn't an escape.
pub(crate) fn escape_length(bytes: &[u8]) -> usize
    ensures value { result ≡ escape_length bytes.now }
    ensures small { result ≤ 3 }
{
    match bytes {
        [] => 0,
        [byte, ..] => if escaped(b'"', *byte).is_some() {
            1
        } else {
            octal_length(bytes)
        },
    }
}

/// The end of the string that begins at a place; `rest` is what follows its first quote.
pub(crate) fn string_end(begin: usize, rest: &[u8]) -> Result<usize, Fault>
    requires { begin + 1 + length rest.now < 2 ^ 64 }
    ensures { result ≡ string_end begin 0 (begin + 1) rest.now }
{
    let mut next = 0;
    for (place, byte) in rest.iter().enumerate() {
        if place < next {
            continue;
        }
        if *byte == b'"' {
            return Ok(begin + 1 + place + 1);
        }
        if *byte == b'\\' {
            let length = escape_length(&rest[place + 1..]);
            if length == 0 {
                return Err(Fault {
                    at: begin + 1 + place,
                    cause: Cause::BadEscape,
                });
            }
            next = place + 1 + length;
        }
    }
    Err(Fault {
        at: begin,
        cause: Cause::UnclosedString,
    })
}
