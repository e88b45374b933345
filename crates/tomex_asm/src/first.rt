//! The first pass, over all lines.

ghost use Rattle.std.specs.Prelude.{◌≡◌, OnOk, IfOk, []};
ghost use Rattle.tomex_asm_tokens.specs.Reading.{Answers};
ghost use Rattle.tomex_asm_places.specs.Kept.{IsPlaced, state_of};
ghost use Rattle.tomex_asm_places.specs.Places.{beginning};
ghost use Rattle.tomex_asm.specs.Assembled.{in_line, lines_from, place_line, place_lines};
ghost use Rattle.tomex_asm.specs.Found.{Gives};

use crate::refusal::{AsmError, Refusal};
use std::alloc::{AllocError, Allocator};
use tomex_asm_numbers::Table;
use tomex_asm_places::{Placed, Position};
use tomex_asm_text::line_at;
use tomex_asm_tokens::{ReadError, Token, read_tokens};

/// Places a line.
#[tactic(auto, unfolding(crate::specs::Assembled::place_line, tomex_asm_text::specs::Lines::line_said))]
fn place_line<'a, A: Allocator + Clone>(
    placed: &mut Placed<'a, A>,
    alloc: A,
    base: u32,
    line: &'a [u8],
    tokens: &mut Vec<Token, A>,
) -> Result<(), ReadError>
    requires { IsPlaced placed.old }
    ensures answer { Answers (λ _. state_of placed.new) result (place_line base line.now (state_of placed.old)) }
    ensures placed { OnOk result (IsPlaced placed.new) }
{
    read_tokens(tokens, line)?;
    let said = line_at(line, tokens.as_slice())?;
    placed.place_labels(&alloc, line, said.labels)?;
    placed.place(alloc, base, line, said.at, said.statement)
}

/// Places the line of a number.
fn place_in<'a, A: Allocator + Clone>(
    number: usize,
    placed: &mut Placed<'a, A>,
    alloc: A,
    base: u32,
    line: &'a [u8],
    tokens: &mut Vec<Token, A>,
) -> Result<(), AsmError>
    requires { IsPlaced placed.old }
    ensures answer { Gives (λ _. state_of placed.new) result
        (in_line number (place_line base line.now (state_of placed.old))) }
    ensures placed { OnOk result (IsPlaced placed.new) }
{
    match place_line(placed, alloc, base, line, tokens) {
        Ok(()) => Ok(()),
        Err(ReadError::Memory) => Err(AsmError::Memory),
        Err(ReadError::Refused(fault)) => Err(AsmError::Refused(Refusal {
            line: number,
            at: fault.at,
            cause: fault.cause,
        })),
    }
}

/// Before the first line.
pub(crate) fn beginning<'a, A: Allocator + Clone>(alloc: A) -> Result<Placed<'a, A>, AllocError>
    ensures state { IfOk result (λ p. state_of p ≡ beginning) }
    ensures placed { IfOk result (λ p. IsPlaced p) }
{
    Ok(Placed {
        position: Position::start(),
        table: Table::new(alloc)?,
    })
}

/// Places all lines of a text without comments.
pub(crate) fn first_pass<'a, A: Allocator + Clone>(
    alloc: A,
    base: u32,
    text: &'a [u8],
) -> Result<Placed<'a, A>, AsmError>
    ensures answer { Gives (λ p. state_of p) result (place_lines base 1 (lines_from [] text.now) beginning) }
    ensures placed { IfOk result (λ p. IsPlaced p) }
{
    let mut tokens = Vec::new(alloc.clone()?);
    let mut placed = beginning(alloc.clone()?)?;
    let mut number = 1;
    let mut start = 0;
    for (place, byte) in text.iter().enumerate() {
        if *byte == b'\n' {
            let line = &text[start..place];
            place_in(number, &mut placed, alloc.clone()?, base, line, &mut tokens)?;
            start = place + 1;
            number += 1;
        }
    }
    let line = &text[start..];
    place_in(number, &mut placed, alloc, base, line, &mut tokens)?;
    Ok(placed)
}
