//! The first pass: where each label is, and what has to be known at once.

ghost use Rattle.std.specs.Prelude.{◌≡◌, OnOk, IfOk, ◌<◌, ◌≤◌, ◌*◌};
ghost use Rattle.tomex_asm_tokens.specs.Reading.{Answers};
ghost use Rattle.tomex_asm_text.specs.Statement.{statement_of};
ghost use Rattle.tomex_asm_numbers.specs.Indexed.{definition_of, definitions_in, IsIndexed, scope_of};
ghost use Rattle.tomex_asm_places.specs.Kept.{IsPlaced, state_of};
ghost use Rattle.tomex_asm_places.specs.Places.{alignment, code, grow, is_again, is_bad_entry, is_entry, is_there};
ghost use Rattle.tomex_asm_places.specs.Places.{known, labelled, moved, space, stated, with_common, with_definition};
ghost use Rattle.tomex_asm_places.specs.Places.{with_equ, with_labels};
ghost use Rattle.tomex_asm_places.specs.Positions.{AreFew, grown, largest};

use crate::position::{Position, alignment_of, load_size};
use crate::sizes::{count_values, strings_size};
use std::alloc::{AllocError, Allocator};
use tomex_asm_numbers::{Definition, Number, Scope, Table, place_of_value, wrapped};
use tomex_asm_text::{Alignment, Section, Statement, text_of};
use tomex_asm_tokens::{Cause, Fault, GREATEST, LEAST, Mark, ReadError, Token};

/// What the lines so far have placed and defined.
#[derive(Drop)]
pub struct Placed<'a, A: Allocator + Clone> {
    pub position: Position,
    pub table: Table<'a, A>,
}

/// The most zeros of a statement.
const MOST_ZEROS: i64 = 1048576;

/// True if a program can begin there.
fn is_entry(number: Number) -> bool
    ensures { result ≡ is_entry number.section number.offset }
{
    match number.section {
        Some(Section::Text) => number.offset >= 0 && wrapped(number.offset) % 4 == 0,
        _ => false,
    }
}

fn is_bad_entry(word: &[u8], number: Number) -> bool
    ensures { result ≡ is_bad_entry word.now number }
{
    word == b"_start".as_slice() && !is_entry(number)
}

/// `size` bytes more, of the statement at a place of the line.
fn grow(position: Position, base: u32, at: usize, size: usize) -> Result<Position, Fault>
    requires { AreFew position }
    ensures answer { result ≡ grow base at size position }
    ensures few { IfOk result (λ p. AreFew p) }
{
    match position.grown(base, size) {
        Some(position) => Ok(position),
        None => Err(Fault {
            at,
            cause: Cause::TooLarge,
        }),
    }
}

/// The place of instructions.
fn code(position: Position, at: usize) -> Result<Position, Fault>
    ensures answer { result ≡ code at position }
    ensures same { IfOk result (λ p. p ≡ position) }
{
    match position.section {
        Section::Data => Err(Fault {
            at,
            cause: Cause::InstructionInData,
        }),
        Section::Text => if position.text_size % 4 == 0 {
            Ok(position)
        } else {
            Err(Fault {
                at,
                cause: Cause::InstructionMisaligned,
            })
        },
    }
}

/// True if the word is a name that is defined.
fn is_again<'a, A: Allocator + Clone>(table: &Table<'a, A>, word: &'a [u8]) -> bool
    requires { IsIndexed table.now }
    ensures { result ≡ is_again word.now (definitions_in table.now) }
{
    !word.first().copied().unwrap_or(0).is_ascii_digit() && !table.numbers_of(word).is_empty()
}

/// Defines a word, which is at a place of the line.
fn define<'a, A: Allocator + Clone>(
    table: &mut Table<'a, A>,
    alloc: A,
    at: usize,
    definition: Definition<'a>,
) -> Result<(), ReadError>
    requires { IsIndexed table.old }
    ensures answer { Answers (λ _. definitions_in table.new) result
        (with_definition at (definition_of definition.entry) (definitions_in table.old)) }
    ensures indexed { OnOk result (IsIndexed table.new) }
{
    if is_again(table, definition.word) {
        return Err(ReadError::Refused(Fault {
            at,
            cause: Cause::DefinedTwice,
        }));
    }
    if is_bad_entry(definition.word, definition.number) {
        return Err(ReadError::Refused(Fault {
            at,
            cause: Cause::BadEntry,
        }));
    }
    table.define(alloc, definition)?;
    Ok(())
}

impl<'a, A: Allocator + Clone> Placed<'a, A> {
    /// What is known at once.
    pub fn known(&self) -> Scope<'_, 'a, A>
        ensures value { scope_of result ≡ known (state_of self.now) }
        ensures above { result.above.now ≡ self.now.table }
        ensures whole { result.whole.now ≡ self.now.table }
    {
        Scope {
            above: &self.table,
            whole: &self.table,
            here: self.position.here(),
            missing: Cause::NotDefinedAbove,
        }
    }

    /// To a multiple of how many bytes the value aligns.
    #[tactic(auto, unfolding(crate::specs::Places::alignment))]
    pub fn alignment(&self, line: &'a [u8], kind: Alignment, value: &[Token]) -> Result<u32, Fault>
        requires { IsIndexed self.now.table }
        ensures answer { result ≡ alignment (state_of self.now) line.now kind value.now }
        ensures some { IfOk result (λ m. 0 < m) }
    {
        let number = self.known().constant(line, value, LEAST, GREATEST)?;
        match alignment_of(kind, number) {
            Some(bytes) => Ok(bytes),
            None => Err(Fault {
                at: place_of_value(value),
                cause: Cause::BadAlignment,
            }),
        }
    }

    /// A number of zeros.
    #[tactic(auto, unfolding(crate::specs::Places::space))]
    pub fn space(&self, line: &'a [u8], value: &[Token]) -> Result<u32, Fault>
        requires { IsIndexed self.now.table }
        ensures { result ≡ space (state_of self.now) line.now value.now }
    {
        let number = self.known().constant(line, value, 0, MOST_ZEROS)?;
        Ok(wrapped(number))
    }

    /// Where the next byte goes after a statement that defines nothing.
    #[tactic(auto, unfolding(crate::specs::Places::moved))]
    fn moved(
        &self,
        base: u32,
        line: &'a [u8],
        at: usize,
        statement: Statement<'_>,
    ) -> Result<Position, Fault>
        requires { IsPlaced self.now }
        ensures answer { result ≡ moved base line.now at (state_of self.now) (statement_of statement.entry) }
        ensures few { IfOk result (λ p. AreFew p) }
    {
        let position = self.position;
        match statement {
            Statement::One(_) => grow(code(position, at)?, base, at, 4),
            Statement::Two(_, _) => grow(code(position, at)?, base, at, 8),
            Statement::LoadNumber(_, value) => {
                let position = code(position, at)?;
                let number = self.known().constant(line, value, LEAST, GREATEST)?;
                grow(position, base, at, load_size(wrapped(number)))
            }
            Statement::InSection(section) => Ok(position.in_section(section)),
            Statement::Align(kind, value) => {
                let alignment = self.alignment(line, kind, value)?;
                grow(position, base, at, position.padding(base, alignment))
            }
            Statement::Space(value) => {
                let size = self.space(line, value)?;
                grow(position, base, at, size as usize)
            }
            Statement::Strings(with_zero, strings) => {
                grow(position, base, at, strings_size(line, with_zero, strings))
            }
            Statement::Data(size, values) => {
                let size = usize::from(size).saturating_mul(count_values(values));
                grow(position, base, at, size)
            }
            _ => Ok(position),
        }
    }

    /// Places `.comm`.
    #[tactic(auto, unfolding(crate::specs::Places::with_common))]
    fn place_common(
        &mut self,
        alloc: A,
        base: u32,
        line: &'a [u8],
        at: usize,
        name: Token,
        size: &[Token],
        alignment: &[Token],
    ) -> Result<(), ReadError>
        requires { IsPlaced self.old }
        ensures answer { Answers (λ _. state_of self.new) result
            (with_common base line.now at (state_of self.old) name size.now alignment.now) }
        ensures placed { OnOk result (IsPlaced self.new) }
    {
        let section = self.position.section;
        let size = self.space(line, size)?;
        let alignment = self.alignment(line, Alignment::Bytes, alignment)?;
        let position = self.position.in_section(Section::Data);
        let position = grow(position, base, at, position.padding(base, alignment))?;
        let definition = Definition {
            word: text_of(line, name),
            number: position.here(),
            is_label: true,
        };
        define(&mut self.table, alloc, name.from, definition)?;
        let position = grow(position, base, at, size as usize)?;
        self.position = position.in_section(section);
        Ok(())
    }

    /// Places `.equ`.
    #[tactic(auto, unfolding(crate::specs::Places::with_equ))]
    fn place_equ(
        &mut self,
        alloc: A,
        line: &'a [u8],
        name: Token,
        value: &[Token],
    ) -> Result<(), ReadError>
        requires { IsPlaced self.old }
        ensures answer { Answers (λ _. state_of self.new) result
            (with_equ line.now (state_of self.old) name value.now) }
        ensures placed { OnOk result (IsPlaced self.new) }
    {
        let definition = Definition {
            word: text_of(line, name),
            number: self.known().value(line, value)?,
            is_label: false,
        };
        define(&mut self.table, alloc, name.from, definition)?;
        Ok(())
    }

    /// Places a statement, which is at a place of the line.
    pub fn place(
        &mut self,
        alloc: A,
        base: u32,
        line: &'a [u8],
        at: usize,
        statement: Statement<'_>,
    ) -> Result<(), ReadError>
        requires { IsPlaced self.old }
        ensures answer { Answers (λ _. state_of self.new) result
            (stated base line.now at (state_of self.old) (statement_of statement.entry)) }
        ensures placed { OnOk result (IsPlaced self.new) }
    {
        match statement {
            Statement::Define(name, value) => self.place_equ(alloc, line, name, value),
            Statement::Common(name, size, alignment) => {
                self.place_common(alloc, base, line, at, name, size, alignment)
            }
            _ => {
                self.position = self.moved(base, line, at, statement)?;
                Ok(())
            }
        }
    }

    /// Places the labels of a line.
    pub fn place_labels(
        &mut self,
        alloc: &A,
        line: &'a [u8],
        labels: &[Token],
    ) -> Result<(), ReadError>
        requires { IsPlaced self.old }
        ensures answer { Answers (λ _. state_of self.new) result (labelled line.now labels.now (state_of self.old)) }
        ensures placed { OnOk result (IsPlaced self.new) }
    {
        let here = self.position.here();
        for token in labels {
            if token.is_mark(Mark::Colon) {
                continue;
            }
            let definition = Definition {
                word: text_of(line, *token),
                number: here,
                is_label: true,
            };
            define(&mut self.table, alloc.clone()?, token.from, definition)?;
        }
        Ok(())
    }
}
