//! The second pass, statement by statement.

ghost use Rattle.std.specs.Prelude.{◌≡◌, ◌++◌, ◌+◌, ◌<◌, ◌^◌, ◌∷◌, [], OnOk, Ok, ℕ, length};
ghost use Rattle.tomex_asm_tokens.specs.Reading.{Answers};
ghost use Rattle.tomex_asm_text.specs.Statement.{statement_of, template_of};
ghost use Rattle.tomex_asm_numbers.specs.Indexed.{IsIndexed, definitions_in, scope_of};
ghost use Rattle.tomex_asm_places.specs.Kept.{IsPlaced, state_of};
ghost use Rattle.tomex_asm_words.specs.Words.{bytes_of, joined, load_number, one, scope_after, scope_at, strings};
ghost use Rattle.tomex_asm_words.specs.Words.{value_at, values_from};

use crate::frame::Frame;
use crate::immediates::Whole;
use crate::writing::{push_instruction, push_number, push_padding, push_zeros};
use std::alloc::{AllocError, Allocator};
use tomex_asm_numbers::{Number, Scope, Table, high, low, wrapped};
use tomex_asm_places::{Placed, Position, inner, is_small, is_string};
use tomex_asm_text::{Statement, Template, text_of};
use tomex_asm_tokens::{Cause, GREATEST, LEAST, Mark, ReadError, Token, push_string};
use tomex_rvdec::Op;

/// Appends an instruction.
#[tactic(auto, unfolding(crate::specs::Words::one))]
fn push_one<'s, 'a, A: Allocator + Clone>(
    bytes: &mut Vec<u8, A>,
    whole: &Whole<'s, 'a, A>,
    line: &'a [u8],
    template: &Template<'_>,
) -> Result<(), ReadError>
    requires above { IsIndexed whole.now.scope.above.now }
    requires whole { IsIndexed whole.now.scope.whole.now }
    ensures { Answers (λ _. bytes.new.items) result (joined bytes.old.items
        (one whole.now.frame whole.now.pc (scope_of whole.now.scope) line.now (template_of template.now))) }
{
    let immediate = whole.immediate(line, template.op.form(), template.immediate)?;
    push_instruction(
        bytes,
        template.op,
        template.rd,
        template.rs1,
        template.rs2,
        immediate,
    )?;
    Ok(())
}

/// Appends `li` of a number, which is taken modulo 2^32.
fn push_load_number<A: Allocator>(
    bytes: &mut Vec<u8, A>,
    rd: u8,
    value: u32,
) -> Result<(), AllocError>
    ensures { OnOk result (bytes.new.items ≡ bytes.old.items ++ load_number rd value) }
{
    if is_small(value) {
        return push_instruction(bytes, Op::Addi, rd, 0, 0, value);
    }
    push_instruction(bytes, Op::Lui, rd, 0, 0, high(value) * 4096)?;
    if low(value) == 0 {
        Ok(())
    } else {
        push_instruction(bytes, Op::Addi, rd, rd, 0, low(value))
    }
}

/// Appends a string, with a zero after it if the flag is set; nothing if the token isn't one.
fn push_text<A: Allocator>(
    bytes: &mut Vec<u8, A>,
    line: &[u8],
    with_zero: bool,
    token: Token,
) -> Result<(), AllocError>
    ensures { OnOk result (bytes.new.items ≡ bytes.old.items ++ strings line.now with_zero (token ∷ [])) }
{
    if !is_string(token.sort) {
        return Ok(());
    }
    push_string(bytes, inner(text_of(line, token)))?;
    push_zeros(bytes, usize::from(with_zero))
}

/// Appends strings, with commas between them.
fn push_strings<A: Allocator>(
    bytes: &mut Vec<u8, A>,
    line: &[u8],
    with_zero: bool,
    tokens: &[Token],
) -> Result<(), AllocError>
    ensures { OnOk result (bytes.new.items ≡ bytes.old.items ++ strings line.now with_zero tokens.now) }
{
    for token in tokens {
        push_text(bytes, line, with_zero, *token)?;
    }
    Ok(())
}

/// Appends a number of a list; `before` bytes of the list are before it.
fn push_value<'s, 'a, A: Allocator + Clone>(
    bytes: &mut Vec<u8, A>,
    whole: &Whole<'s, 'a, A>,
    position: Position,
    line: &'a [u8],
    size: u8,
    before: u64,
    value: &[Token],
) -> Result<(), ReadError>
    requires above { IsIndexed whole.now.scope.above.now }
    requires whole { IsIndexed whole.now.scope.whole.now }
    requires few { before < 2 ^ 62 }
    ensures { Answers (λ _. bytes.new.items) result (joined bytes.old.items
        (value_at whole.now.frame position (scope_of whole.now.scope) line.now size before value.now)) }
{
    let here = Number {
        section: Some(position.section),
        offset: i64::from(position.offset()) + before as i64,
    };
    let own = Whole {
        scope: Scope {
            above: whole.scope.above,
            whole: whole.scope.whole,
            here,
            missing: whole.scope.missing,
        },
        frame: whole.frame,
        pc: whole.pc,
    };
    let value = own.datum(line, size, value)?;
    push_number(bytes, size, value)?;
    Ok(())
}

/// Appends the numbers of a list, with commas between them.
fn push_values<'s, 'a, A: Allocator + Clone>(
    bytes: &mut Vec<u8, A>,
    whole: &Whole<'s, 'a, A>,
    position: Position,
    line: &'a [u8],
    size: u8,
    values: &[Token],
) -> Result<(), ReadError>
    requires above { IsIndexed whole.now.scope.above.now }
    requires whole { IsIndexed whole.now.scope.whole.now }
    ensures { Answers (λ _. bytes.new.items) result (joined bytes.old.items
        (values_from whole.now.frame position (scope_of whole.now.scope) line.now size 0 [] values.now)) }
{
    // The first pass refuses longer lists.
    if values.len() >= 1 << 32 {
        return Err(ReadError::Memory);
    }
    let mut start = 0;
    let mut before: u64 = 0;
    for (place, token) in values.iter().enumerate() {
        if token.is_mark(Mark::Comma) {
            push_value(
                bytes,
                whole,
                position,
                line,
                size,
                before,
                &values[start..place],
            )?;
            start = place + 1;
            before += u64::from(size);
        }
    }
    push_value(bytes, whole, position, line, size, before, &values[start..])
}

/// What a statement at the state `placed` is read with.
pub(crate) fn whole_at<'s, 'a, A: Allocator + Clone>(
    placed: &'s Placed<'a, A>,
    table: &'s Table<'a, A>,
    frame: Frame,
) -> Whole<'s, 'a, A>
    ensures scope { scope_of result.scope ≡ scope_at (definitions_in table.now) (state_of placed.now) }
    ensures above { result.scope.above.now ≡ placed.now.table }
    ensures whole { result.scope.whole.now ≡ table.now }
    ensures frame { result.frame ≡ frame }
    ensures pc { result.pc ≡ placed.now.position.text_size }
{
    Whole {
        scope: Scope {
            above: &placed.table,
            whole: table,
            here: placed.position.here(),
            missing: Cause::Undefined,
        },
        frame,
        pc: placed.position.text_size,
    }
}

/// Appends the bytes of a statement to those of its section; `placed` is the state before the statement.
#[tactic(auto, unfolding(crate::specs::Words::bytes_of))]
pub(crate) fn push_statement<'a, A: Allocator + Clone>(
    bytes: &mut Vec<u8, A>,
    placed: &Placed<'a, A>,
    table: &Table<'a, A>,
    frame: Frame,
    line: &'a [u8],
    statement: Statement<'_>,
) -> Result<(), ReadError>
    requires placed { IsPlaced placed.now }
    requires whole { IsIndexed table.now }
    ensures { Answers (λ _. bytes.new.items) result (joined bytes.old.items
        (bytes_of frame (definitions_in table.now) line.now (state_of placed.now) (statement_of statement.entry))) }
{
    let whole = whole_at(placed, table, frame);
    let position = placed.position;
    match statement {
        Statement::One(template) => push_one(bytes, &whole, line, &template),
        Statement::Two(first, second) => {
            push_one(bytes, &whole, line, &first)?;
            push_one(bytes, &whole, line, &second)
        }
        Statement::LoadNumber(rd, value) => {
            let number = placed.known().constant(line, value, LEAST, GREATEST)?;
            push_load_number(bytes, rd, wrapped(number))?;
            Ok(())
        }
        Statement::Align(kind, value) => {
            let alignment = placed.alignment(line, kind, value)?;
            push_padding(
                bytes,
                position.section,
                position.padding(frame.base, alignment),
            )?;
            Ok(())
        }
        Statement::Space(value) => {
            let size = placed.space(line, value)?;
            push_zeros(bytes, size as usize)?;
            Ok(())
        }
        Statement::Strings(with_zero, strings) => {
            push_strings(bytes, line, with_zero, strings)?;
            Ok(())
        }
        Statement::Data(size, values) => push_values(bytes, &whole, position, line, size, values),
        _ => Ok(()),
    }
}
