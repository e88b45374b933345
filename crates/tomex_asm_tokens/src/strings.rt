//! The bytes for which a string stands.

ghost use Rattle.std.specs.Prelude.{◌≡◌, ◌++◌, ◌%◌, ◌≤◌, OnOk, length};
ghost use Rattle.std.specs.Str.Parse.{digits_value};
ghost use Rattle.tomex_asm_tokens.specs.Tokens.{octal_length};
ghost use Rattle.tomex_asm_tokens.specs.Strings.{escape_value, string_bytes};

use crate::literal::{escape_length, escaped, octal_length};
use crate::numeral::digit_value;
use std::alloc::{AllocError, Allocator};

/// The number that octal digits mean, modulo 256.
fn octal_value(digits: &[u8]) -> u8
    ensures { result ≡ digits_value 8 digits.now % 256 }
{
    let mut value: u8 = 0;
    for digit in digits {
        value = value.wrapping_mul(8).wrapping_add(digit_value(*digit));
    }
    value
}

/// What the bytes after a `\` stand for, if they are an escape.
fn escape_value(bytes: &[u8]) -> u8
    ensures { result ≡ escape_value bytes.now }
{
    match bytes {
        [] => 0,
        [byte, ..] => match escaped(b'"', *byte) {
            Some(value) => value,
            None => octal_value(&bytes[..octal_length(bytes)]),
        },
    }
}

/// Appends the bytes for which a string stands. `inner` is what is between its quotes.
#[tactic(auto, unfolding(crate::specs::Strings::string_bytes))]
pub fn push_string<A: Allocator>(out: &mut Vec<u8, A>, inner: &[u8]) -> Result<(), AllocError>
    ensures { OnOk result (out.new.items ≡ out.old.items ++ string_bytes inner.now) }
{
    let mut next = 0;
    for (place, byte) in inner.iter().enumerate() {
        if place < next {
            continue;
        }
        if *byte == b'\\' {
            let rest = &inner[place + 1..];
            out.push(escape_value(rest))?;
            next = place + 1 + escape_length(rest);
        } else {
            out.push(*byte)?;
        }
    }
    Ok(())
}

/// How many bytes a string stands for. `inner` is what is between its quotes.
#[tactic(auto, unfolding(crate::specs::Strings::string_bytes))]
pub fn string_length(inner: &[u8]) -> usize
    ensures { result ≡ length (string_bytes inner.now) }
{
    let mut next = 0;
    let mut count = 0;
    for (place, byte) in inner.iter().enumerate() {
        if place < next {
            continue;
        }
        count += 1;
        if *byte == b'\\' {
            next = place + 1 + escape_length(&inner[place + 1..]);
        }
    }
    count
}
