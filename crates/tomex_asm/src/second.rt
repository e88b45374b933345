//! The second pass, over all lines.

ghost use Rattle.std.specs.Prelude.{◌≡◌, OnOk, IfOk, []};
ghost use Rattle.tomex_asm_tokens.specs.Reading.{Answers};
ghost use Rattle.tomex_asm_numbers.specs.Indexed.{IsIndexed, definitions_in};
ghost use Rattle.tomex_asm_places.specs.Kept.{IsPlaced};
ghost use Rattle.tomex_asm.specs.Assembled.{in_line, lines_from, nothing_written, write_line, write_lines};
ghost use Rattle.tomex_asm.specs.Found.{Gives, both_of};

use crate::first::beginning;
use crate::refusal::{AsmError, Refusal};
use std::alloc::{AllocError, Allocator};
use tomex_asm_numbers::Table;
use tomex_asm_places::Placed;
use tomex_asm_text::line_at;
use tomex_asm_tokens::{ReadError, Token, read_tokens};
use tomex_asm_words::{Frame, Output};

/// What the lines so far have placed and written.
#[derive(Drop)]
pub struct Second<'a, A: Allocator + Clone> {
    pub placed: Placed<'a, A>,
    pub output: Output<'a, A>,
}

/// Writes a line; `table` has all that the text defines.
#[tactic(auto, unfolding(crate::specs::Assembled::write_line, tomex_asm_text::specs::Lines::line_said))]
fn write_line<'a, A: Allocator + Clone>(
    second: &mut Second<'a, A>,
    table: &Table<'a, A>,
    alloc: A,
    frame: Frame,
    line: &'a [u8],
    tokens: &mut Vec<Token, A>,
) -> Result<(), ReadError>
    requires placed { IsPlaced second.old.placed }
    requires whole { IsIndexed table.now }
    ensures answer { Answers (λ _. both_of second.new) result
        (write_line frame (definitions_in table.now) line.now (both_of second.old)) }
    ensures placed { OnOk result (IsPlaced second.new.placed) }
{
    read_tokens(tokens, line)?;
    let said = line_at(line, tokens.as_slice())?;
    second.placed.place_labels(&alloc, line, said.labels)?;
    second
        .output
        .write(&second.placed, table, frame, line, said.statement)?;
    second
        .placed
        .place(alloc, frame.base, line, said.at, said.statement)
}

/// Writes the line of a number.
fn write_in<'a, A: Allocator + Clone>(
    number: usize,
    second: &mut Second<'a, A>,
    table: &Table<'a, A>,
    alloc: A,
    frame: Frame,
    line: &'a [u8],
    tokens: &mut Vec<Token, A>,
) -> Result<(), AsmError>
    requires placed { IsPlaced second.old.placed }
    requires whole { IsIndexed table.now }
    ensures answer { Gives (λ _. both_of second.new) result
        (in_line number (write_line frame (definitions_in table.now) line.now (both_of second.old))) }
    ensures placed { OnOk result (IsPlaced second.new.placed) }
{
    match write_line(second, table, alloc, frame, line, tokens) {
        Ok(()) => Ok(()),
        Err(ReadError::Memory) => Err(AsmError::Memory),
        Err(ReadError::Refused(fault)) => Err(AsmError::Refused(Refusal {
            line: number,
            at: fault.at,
            cause: fault.cause,
        })),
    }
}

/// Before the first line.
fn nothing<'a, A: Allocator + Clone>(alloc: A) -> Result<Second<'a, A>, AllocError>
    ensures state { IfOk result (λ b. both_of b ≡ nothing_written) }
    ensures placed { IfOk result (λ b. IsPlaced b.placed) }
{
    Ok(Second {
        placed: beginning(alloc.clone()?)?,
        output: Output {
            code: Vec::new(alloc.clone()?),
            contents: Vec::new(alloc.clone()?),
            remarks: Vec::new(alloc),
        },
    })
}

/// Writes all lines of a text without comments; `table` has all that the text defines.
pub(crate) fn second_pass<'a, A: Allocator + Clone>(
    alloc: A,
    table: &Table<'a, A>,
    frame: Frame,
    text: &'a [u8],
) -> Result<Second<'a, A>, AsmError>
    requires { IsIndexed table.now }
    ensures { Gives (λ b. both_of b) result
        (write_lines frame (definitions_in table.now) 1 (lines_from [] text.now) nothing_written) }
{
    let mut tokens = Vec::new(alloc.clone()?);
    let mut second = nothing(alloc.clone()?)?;
    let mut number = 1;
    let mut start = 0;
    for (place, byte) in text.iter().enumerate() {
        if *byte == b'\n' {
            let line = &text[start..place];
            write_in(
                number,
                &mut second,
                table,
                alloc.clone()?,
                frame,
                line,
                &mut tokens,
            )?;
            start = place + 1;
            number += 1;
        }
    }
    let line = &text[start..];
    write_in(number, &mut second, table, alloc, frame, line, &mut tokens)?;
    Ok(second)
}
