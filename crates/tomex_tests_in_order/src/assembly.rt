//! Texts in assembly: what is left without comments, the tokens, what lines say, and the first refusal. What they are
//! compared with was worked out by hand, or is from golden cases that another assembler made.

mod files;
mod greatest;
mod lines;
mod refusals;

use std::alloc::Allocator;
use tomex_asm_text::{Line, line_at};
use tomex_asm_tokens::{ReadError, Token, read_tokens};

/// What a line without comments says. Its tokens are put into the list.
fn read_line<'a, A: Allocator>(
    tokens: &'a mut Vec<Token, A>,
    line: &[u8],
) -> Result<Line<'a>, ReadError> {
    read_tokens(tokens, line)?;
    Ok(line_at(line, tokens.as_slice())?)
}
