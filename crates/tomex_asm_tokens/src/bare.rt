//! A text without its comments.

ghost use Rattle.std.specs.Prelude.{◌≡◌, ℕ, ◌<◌, nat_lt, IfOk, length, drop};
ghost use Rattle.tomex_asm_tokens.specs.Bare.{bare, begins_end, has_end};

use crate::mode::{Mode, bare_byte};
use std::alloc::{AllocError, Allocator};

fn begins_end(bytes: &[u8]) -> bool
    ensures { result ≡ begins_end bytes.now }
{
    matches!(bytes, [b'*', b'/', ..])
}

/// The place after the last `*` that a `/` follows, or 0.
fn last_end(text: &[u8]) -> usize
    ensures { (place : ℕ) → has_end (drop place text.now) ≡ nat_lt place result }
{
    for place in (0..text.len()).rev() {
        if begins_end(&text[place..]) {
            return place + 1;
        }
    }
    0
}

/// The text with a space for each byte of a comment. Newlines stay. The only error is out of memory.
pub fn without_comments<A: Allocator>(alloc: A, text: &[u8]) -> Result<Vec<u8, A>, AllocError>
    ensures { IfOk result (λ bytes. bytes.items ≡ bare text.now) }
{
    let end = last_end(text);
    let mut bytes = Vec::with_capacity(alloc, text.len())?;
    let mut mode = Mode::Code;
    for (place, byte) in text.iter().enumerate() {
        let next = text.get(place + 1).copied();
        let after = mode.after(*byte, next, place + 2 < end);
        bytes.push(bare_byte(mode, after, *byte))?;
        mode = after;
    }
    Ok(bytes)
}
