//! What the second pass writes.

ghost use Rattle.std.specs.Prelude.{◌≡◌, ◌++◌, OnOk, map};
ghost use Rattle.tomex_asm_tokens.specs.Reading.{Answers};
ghost use Rattle.tomex_asm_text.specs.Statement.{statement_of};
ghost use Rattle.tomex_asm_numbers.specs.Indexed.{IsIndexed, definitions_in};
ghost use Rattle.tomex_asm_places.specs.Kept.{IsPlaced, state_of};
ghost use Rattle.tomex_asm_words.specs.Outputs.{output_of, remark_of};
ghost use Rattle.tomex_asm_words.specs.Words.{after_remarks, bound, common, joined, remarks_of, written};

use crate::frame::Frame;
use crate::statements::{push_statement, whole_at};
use crate::writing::push_zeros;
use std::alloc::{AllocError, Allocator};
use tomex_asm_numbers::{Table, wrapped};
use tomex_asm_places::Placed;
use tomex_asm_text::{Alignment, Binding, Kind, Section, Statement, text_of};
use tomex_asm_tokens::{GREATEST, ReadError, Token};

/// What a directive says of a symbol.
#[derive(Clone, Copy)]
pub enum Said {
    Bound(Binding),
    IsOfKind(Kind),
    HasSize(u32),
}

/// What a directive says of a symbol, and the symbol's name.
#[derive(Clone, Copy)]
pub struct Remark<'a> {
    pub name: &'a [u8],
    pub said: Said,
}

/// The bytes of both sections, and what is said of symbols, in the order of the text.
#[derive(Drop)]
pub struct Output<'a, A: Allocator + Clone> {
    pub code: Vec<u8, A>,
    pub contents: Vec<u8, A>,
    pub remarks: Vec<Remark<'a>, A>,
}

/// Appends a remark for each name of a list.
fn push_bound<'a, A: Allocator>(
    remarks: &mut Vec<Remark<'a>, A>,
    line: &'a [u8],
    binding: Binding,
    names: &[Token],
) -> Result<(), AllocError>
    ensures { OnOk result (map remark_of remarks.new.items
        ≡ map remark_of remarks.old.items ++ bound line.now binding names.now) }
{
    for token in names {
        if token.is_word() {
            remarks.push(Remark {
                name: text_of(line, *token),
                said: Said::Bound(binding),
            })?;
        }
    }
    Ok(())
}

/// Appends what a statement says of symbols.
#[tactic(auto, unfolding(crate::specs::Words::remarks_of))]
fn push_remarks<'a, A: Allocator + Clone>(
    remarks: &mut Vec<Remark<'a>, A>,
    placed: &Placed<'a, A>,
    table: &Table<'a, A>,
    frame: Frame,
    line: &'a [u8],
    statement: Statement<'_>,
) -> Result<(), ReadError>
    requires placed { IsPlaced placed.now }
    requires whole { IsIndexed table.now }
    ensures { Answers (λ _. map remark_of remarks.new.items) result
        (after_remarks (map remark_of remarks.old.items)
        (remarks_of (definitions_in table.now) line.now (state_of placed.now) (statement_of statement.entry))) }
{
    match statement {
        Statement::Bind(binding, names) => {
            push_bound(remarks, line, binding, names)?;
            Ok(())
        }
        Statement::OfKind(name, kind) => {
            remarks.push(Remark {
                name: text_of(line, name),
                said: Said::IsOfKind(kind),
            })?;
            Ok(())
        }
        Statement::Size(name, value) => {
            let whole = whole_at(placed, table, frame);
            let size = whole.scope.constant(line, value, 0, GREATEST)?;
            remarks.push(Remark {
                name: text_of(line, name),
                said: Said::HasSize(wrapped(size)),
            })?;
            Ok(())
        }
        _ => Ok(()),
    }
}

/// Appends the bytes of `.comm`.
#[tactic(auto, unfolding(crate::specs::Words::common))]
fn push_common<'a, A: Allocator + Clone>(
    bytes: &mut Vec<u8, A>,
    placed: &Placed<'a, A>,
    frame: Frame,
    line: &'a [u8],
    size: &[Token],
    alignment: &[Token],
) -> Result<(), ReadError>
    requires placed { IsPlaced placed.now }
    ensures { Answers (λ _. bytes.new.items) result (joined bytes.old.items
        (common frame line.now (state_of placed.now) size.now alignment.now)) }
{
    let size = placed.space(line, size)?;
    let alignment = placed.alignment(line, Alignment::Bytes, alignment)?;
    let before = placed
        .position
        .in_section(Section::Data)
        .padding(frame.base, alignment);
    push_zeros(bytes, before + size as usize)?;
    Ok(())
}

impl<'a, A: Allocator + Clone> Output<'a, A> {
    /// Writes a statement; `placed` is the state before it, and `table` has all that the text defines.
    #[tactic(auto, unfolding(crate::specs::Words::written))]
    pub fn write(
        &mut self,
        placed: &Placed<'a, A>,
        table: &Table<'a, A>,
        frame: Frame,
        line: &'a [u8],
        statement: Statement<'_>,
    ) -> Result<(), ReadError>
        requires placed { IsPlaced placed.now }
        requires whole { IsIndexed table.now }
        ensures { Answers (λ _. output_of self.new) result (written frame (definitions_in table.now) line.now
            (state_of placed.now) (statement_of statement.entry) (output_of self.old)) }
    {
        match statement {
            Statement::Common(_, size, alignment) => {
                push_common(&mut self.contents, placed, frame, line, size, alignment)?;
            }
            _ => match placed.position.section {
                Section::Text => {
                    push_statement(&mut self.code, placed, table, frame, line, statement)?;
                }
                Section::Data => {
                    push_statement(&mut self.contents, placed, table, frame, line, statement)?;
                }
            },
        }
        push_remarks(&mut self.remarks, placed, table, frame, line, statement)
    }
}
