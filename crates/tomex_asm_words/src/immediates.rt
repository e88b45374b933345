//! What instructions and data hold, once each label has its place.

ghost use Rattle.std.specs.Prelude.{◌≡◌, ◌*◌};
ghost use Rattle.tomex_asm_text.specs.Statement.{immediate_of};
ghost use Rattle.tomex_asm_numbers.specs.Indexed.{IsIndexed, scope_of};
ghost use Rattle.tomex_asm_words.specs.Immediates.{address_of, datum, greatest_of, if_even, immediate, in_field};
ghost use Rattle.tomex_asm_words.specs.Immediates.{is_upper, least_of, target};

use crate::frame::Frame;
use std::alloc::Allocator;
use tomex_asm_numbers::{Number, Scope, at_place, high, low, place_of_value, wrapped};
use tomex_asm_text::Immediate;
use tomex_asm_tokens::{Cause, Fault, GREATEST, LEAST, Thing, Token};
use tomex_rvdec::Form;

fn least_of(form: Form) -> i64
    ensures { result ≡ least_of form }
{
    match form {
        Form::Shift | Form::Upper => 0,
        Form::Branch => -4096,
        Form::Jump => -1048576,
        _ => -2048,
    }
}

fn greatest_of(form: Form) -> i64
    ensures { result ≡ greatest_of form }
{
    match form {
        Form::Shift => 31,
        Form::Upper => 1048575,
        Form::Branch => 4094,
        Form::Jump => 1048574,
        _ => 2047,
    }
}

/// A number in its field: the upper 20 bits are at their place.
fn in_field(form: Form, number: u32) -> u32
    ensures { result ≡ in_field form number }
{
    if matches!(form, Form::Upper) {
        number.wrapping_mul(4096)
    } else {
        number
    }
}

fn if_even(begin: usize, distance: i64) -> Result<i64, Fault>
    ensures { result ≡ if_even begin distance }
{
    if wrapped(distance) % 2 == 0 {
        Ok(distance)
    } else {
        Err(Fault {
            at: begin,
            cause: Cause::OddOffset,
        })
    }
}

/// What the words of a statement stand for, and where the sections are.
#[derive(Clone, Copy)]
pub struct Whole<'s, 'a, A: Allocator + Clone> {
    pub scope: Scope<'s, 'a, A>,
    pub frame: Frame,
    /// How far the statement is from where the text begins.
    pub pc: u32,
}

impl<'s, 'a, A: Allocator + Clone> Whole<'s, 'a, A> {
    /// The value, which has to be an address.
    #[tactic(auto, unfolding(crate::specs::Immediates::address_of))]
    fn address(&self, line: &'a [u8], value: &[Token]) -> Result<Number, Fault>
        requires above { IsIndexed self.now.scope.above.now }
        requires whole { IsIndexed self.now.scope.whole.now }
        ensures { result ≡ address_of (scope_of self.now.scope) line.now value.now }
    {
        let number = self.scope.value(line, value)?;
        match number.section {
            Some(_) => Ok(number),
            None => Err(Fault {
                at: place_of_value(value),
                cause: Cause::Expected(Thing::Address),
            }),
        }
    }

    /// How far the target of a branch or a jump is, modulo 2^32.
    #[tactic(auto, unfolding(crate::specs::Immediates::target))]
    fn target(&self, line: &'a [u8], form: Form, value: &[Token]) -> Result<u32, Fault>
        requires above { IsIndexed self.now.scope.above.now }
        requires whole { IsIndexed self.now.scope.whole.now }
        ensures { result ≡ target self.now.frame self.now.pc (scope_of self.now.scope) line.now form value.now }
    {
        let number = self.scope.value(line, value)?;
        let begin = place_of_value(value);
        let distance = self
            .frame
            .distance_within(self.pc, number, least_of(form), greatest_of(form));
        Ok(wrapped(if_even(begin, at_place(begin, distance)?)?))
    }

    /// An instruction's immediate, modulo 2^32.
    #[tactic(auto, unfolding(crate::specs::Immediates::immediate))]
    pub(crate) fn immediate(
        &self,
        line: &'a [u8],
        form: Form,
        field: Immediate<'_>,
    ) -> Result<u32, Fault>
        requires above { IsIndexed self.now.scope.above.now }
        requires whole { IsIndexed self.now.scope.whole.now }
        ensures { result ≡ immediate self.now.frame self.now.pc (scope_of self.now.scope) line.now form
            (immediate_of field.entry) }
    {
        match field {
            Immediate::Fixed(number) => Ok(number.cast_unsigned()),
            Immediate::Plain(value) => {
                let number = self
                    .scope
                    .constant(line, value, least_of(form), greatest_of(form))?;
                Ok(in_field(form, wrapped(number)))
            }
            Immediate::Low(value) => Ok(low(self.frame.word(self.scope.value(line, value)?))),
            Immediate::High(value) => {
                Ok(high(self.frame.word(self.scope.value(line, value)?)) * 4096)
            }
            Immediate::Target(value) => self.target(line, form, value),
            Immediate::PcHigh(value) => {
                Ok(high(self.frame.far(self.pc, self.address(line, value)?)) * 4096)
            }
            Immediate::PcLow(value) => Ok(low(self.frame.far(self.pc, self.address(line, value)?))),
        }
    }

    /// A number of data, of `size` bytes.
    #[tactic(auto, unfolding(crate::specs::Immediates::datum))]
    pub(crate) fn datum(&self, line: &'a [u8], size: u8, value: &[Token]) -> Result<i64, Fault>
        requires above { IsIndexed self.now.scope.above.now }
        requires whole { IsIndexed self.now.scope.whole.now }
        ensures { result ≡ datum self.now.frame (scope_of self.now.scope) line.now size value.now }
    {
        if size == 1 {
            return self.scope.constant(line, value, -128, 255);
        }
        if size == 2 {
            return self.scope.constant(line, value, -32768, 65535);
        }
        let number = self.scope.value(line, value)?;
        at_place(
            place_of_value(value),
            self.frame.value_within(number, LEAST, GREATEST),
        )
    }
}
