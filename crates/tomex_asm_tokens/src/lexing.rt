//! From a line to its tokens.

ghost use Rattle.std.specs.Prelude.{◌≡◌, ◌+◌, ◌<◌, ◌^◌, Some, None, length};
ghost use Rattle.tomex_asm_tokens.specs.Tokens.{mark_of, mark_at, token, tokens};
ghost use Rattle.tomex_asm_tokens.specs.Reading.{Answers};

use crate::cause::{Cause, Fault, ReadError};
use crate::characters::{begins_word, is_blank, word_length};
use crate::literal::{character_at, string_end};
use crate::numeral::numeral;
use crate::token::{Mark, Sort, Token};
use std::alloc::Allocator;

fn mark_of(byte: u8) -> Option<Mark>
    ensures { result ≡ mark_of byte }
{
    match byte {
        b',' => Some(Mark::Comma),
        b'(' => Some(Mark::Open),
        b')' => Some(Mark::Close),
        b':' => Some(Mark::Colon),
        b'+' => Some(Mark::Plus),
        b'-' => Some(Mark::Minus),
        b'*' => Some(Mark::Star),
        b'%' => Some(Mark::Percent),
        b'@' => Some(Mark::At),
        _ => None,
    }
}

/// The mark at a place, or why there is none.
fn mark_at(at: usize, byte: u8, rest: &[u8]) -> Result<Token, Fault>
    requires { at + 1 < 2 ^ 64 }
    ensures { result ≡ mark_at at (mark_of byte) byte rest.now }
{
    match mark_of(byte) {
        Some(mark) => Ok(Token {
            sort: Sort::Mark(mark),
            from: at,
            to: at + 1,
        }),
        None => {
            let cause = match rest {
                [b'*', ..] if byte == b'/' => Cause::UnclosedComment,
                _ => Cause::BadCharacter,
            };
            Err(Fault { at, cause })
        }
    }
}

/// The token with which the bytes of a line from a place on begin.
#[tactic(auto, unfolding(crate::specs::Tokens::token))]
fn token_at(at: usize, bytes: &[u8]) -> Result<Token, Fault>
    requires { at + length bytes.now + 4 < 2 ^ 64 }
    ensures { result ≡ token at bytes.now }
{
    let Some((first, rest)) = bytes.split_first() else {
        return Err(Fault {
            at,
            cause: Cause::BadCharacter,
        });
    };
    let first = *first;
    if begins_word(first) {
        Ok(Token {
            sort: Sort::Word,
            from: at,
            to: at + word_length(bytes),
        })
    } else if first.is_ascii_digit() {
        let length = word_length(bytes);
        match numeral(&bytes[..length]) {
            Ok(sort) => Ok(Token {
                sort,
                from: at,
                to: at + length,
            }),
            Err(cause) => Err(Fault { at, cause }),
        }
    } else if first == b'\'' {
        character_at(at, rest)
    } else if first == b'"' {
        let to = string_end(at, rest)?;
        Ok(Token {
            sort: Sort::Text,
            from: at,
            to,
        })
    } else {
        mark_at(at, first, rest)
    }
}

/// Puts the tokens of a line without comments into the list, in place of what is there.
pub fn read_tokens<A: Allocator>(out: &mut Vec<Token, A>, line: &[u8]) -> Result<(), ReadError>
    ensures { Answers (λ _. out.new.items) result (tokens line.now) }
{
    out.clear();
    let mut next = 0;
    for (at, byte) in line.iter().enumerate() {
        if at < next || is_blank(*byte) {
            continue;
        }
        let token = token_at(at, &line[at..])?;
        next = token.to;
        out.push(token)?;
    }
    Ok(())
}
