//! From a text without comments to its program.

ghost use Rattle.std.specs.Prelude.{◌≡◌, [], ◌-◌, IfOk, ◌^◌, ◌≤◌};
ghost use Rattle.tomex_asm_numbers.specs.Indexed.{IsIndexed, definitions_in};
ghost use Rattle.tomex_asm_places.specs.Kept.{IsPlaced, state_of};
ghost use Rattle.tomex_asm_places.specs.Places.{beginning};
ghost use Rattle.tomex_asm_places.specs.Positions.{AreFew};
ghost use Rattle.tomex_asm.specs.Assembled.{count_lines, frame_of, lines_from, place_lines, written_program};
ghost use Rattle.tomex_asm.specs.Found.{Gives, after_places, program_of};

use crate::first::first_pass;
use crate::refusal::{AsmError, Refusal};
use crate::second::second_pass;
use std::alloc::Allocator;
use tomex_asm_places::{Placed, Position};
use tomex_asm_tokens::Cause;
use tomex_asm_words::{Frame, Output};

/// A program: where its sections are and how long, what it defines, and its bytes.
#[derive(Drop)]
pub struct Program<'a, A: Allocator + Clone> {
    pub base: u32,
    pub placed: Placed<'a, A>,
    pub output: Output<'a, A>,
}

/// How many lines a text has.
fn count_lines(text: &[u8]) -> usize
    ensures { result ≡ count_lines text.now }
{
    let mut count = 1;
    for byte in text {
        if *byte == b'\n' {
            count += 1;
        }
    }
    count
}

/// Where the sections are, once all lines are placed.
pub(crate) fn frame_of(base: u32, position: Position) -> Frame
    requires { AreFew position }
    ensures { result ≡ frame_of base position }
{
    let gap = position.data_at(base) - u64::from(base);
    Frame {
        base,
        gap: gap as u32,
    }
}

/// The program of a text whose lines are placed.
fn written_program<'a, A: Allocator + Clone>(
    alloc: A,
    base: u32,
    text: &'a [u8],
    placed: Placed<'a, A>,
) -> Result<Program<'a, A>, AsmError>
    requires { IsPlaced placed }
    ensures answer { Gives (λ p. program_of p) result (written_program base text.now (state_of placed.entry)) }
    ensures placed { IfOk result (λ p. IsPlaced p.placed) }
{
    if placed.position.text_size == 0 {
        return Err(AsmError::Refused(Refusal {
            line: count_lines(text),
            at: 0,
            cause: Cause::NoCode,
        }));
    }
    let frame = frame_of(base, placed.position);
    let second = second_pass(alloc, &placed.table, frame, text)?;
    Ok(Program {
        base,
        placed,
        output: second.output,
    })
}

/// The program of a text without comments.
pub(crate) fn program_of<'a, A: Allocator + Clone>(
    alloc: A,
    base: u32,
    text: &'a [u8],
) -> Result<Program<'a, A>, AsmError>
    ensures answer { Gives (λ p. program_of p) result
        (after_places base text.now (place_lines base 1 (lines_from [] text.now) beginning)) }
    ensures placed { IfOk result (λ p. IsPlaced p.placed) }
{
    let placed = first_pass(alloc.clone()?, base, text)?;
    written_program(alloc, base, text, placed)
}
