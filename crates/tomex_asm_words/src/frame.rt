//! Where the sections are in memory.

ghost use Rattle.std.specs.Prelude.{◌≡◌, ℤ, FitsSigned, ◌+◌, ◌-◌, ◌^◌, ◌%◌};
ghost use Rattle.std.specs.Int.{w64};
ghost use Rattle.std.specs.Option.{SomeIff};
ghost use Rattle.tomex_asm_numbers.specs.Numbers.{within};
ghost use Rattle.tomex_asm_words.specs.Immediates.{distance_in, far_in, value_in, word_in};

use tomex_asm_numbers::{Number, within, wrapped};
use tomex_asm_text::Section;
use tomex_asm_tokens::Cause;

/// Where the text begins, and how far the data is from there.
#[derive(Clone, Copy)]
pub struct Frame {
    pub base: u32,
    pub gap: u32,
}

impl Frame {
    /// A number as memory has it, if 64 bits hold it.
    fn value(self, number: Number) -> Option<i64>
        ensures { SomeIff result (FitsSigned w64 (value_in self number.section number.offset))
            (value_in self number.section number.offset) }
    {
        match number.section {
            None => Some(number.offset),
            Some(Section::Text) => number.offset.checked_add(i64::from(self.base)),
            Some(Section::Data) => number
                .offset
                .checked_add(i64::from(self.base) + i64::from(self.gap)),
        }
    }

    /// A number as memory has it, modulo 2^32.
    pub fn word(self, number: Number) -> u32
        ensures { result ≡ word_in self number.section number.offset }
    {
        let word = wrapped(number.offset);
        match number.section {
            None => word,
            Some(Section::Text) => word.wrapping_add(self.base),
            Some(Section::Data) => word.wrapping_add(self.base).wrapping_add(self.gap),
        }
    }

    /// How far a number is from an instruction, if 64 bits hold it. A constant is a distance.
    fn distance(self, pc: u32, number: Number) -> Option<i64>
        ensures { SomeIff result (FitsSigned w64 (distance_in self pc number.section number.offset))
            (distance_in self pc number.section number.offset) }
    {
        let pc = i64::from(pc);
        match number.section {
            None => Some(number.offset),
            Some(Section::Text) => number.offset.checked_sub(pc),
            Some(Section::Data) => number.offset.checked_sub(pc - i64::from(self.gap)),
        }
    }

    /// How far an address is from an instruction, modulo 2^32.
    pub(crate) fn far(self, pc: u32, number: Number) -> u32
        ensures { result ≡ far_in self pc number }
    {
        self.word(number).wrapping_sub(pc.wrapping_add(self.base))
    }

    /// A number as memory has it, if it is from `least` to `greatest`.
    pub(crate) fn value_within(
        self,
        number: Number,
        least: i64,
        greatest: i64,
    ) -> Result<i64, Cause>
        ensures { result ≡ within (value_in self number.section number.offset) least greatest }
    {
        checked_within(self.value(number), least, greatest)
    }

    /// How far a number is from an instruction, if it is from `least` to `greatest`.
    pub(crate) fn distance_within(
        self,
        pc: u32,
        number: Number,
        least: i64,
        greatest: i64,
    ) -> Result<i64, Cause>
        ensures { result ≡ within (distance_in self pc number.section number.offset) least greatest }
    {
        checked_within(self.distance(pc, number), least, greatest)
    }
}

/// A number that was computed, if it is from `least` to `greatest`. `None` is one that 64 bits don't hold.
fn checked_within(value: Option<i64>, least: i64, greatest: i64) -> Result<i64, Cause>
    ensures { (z : ℤ) → SomeIff value (FitsSigned w64 z) z → result ≡ within z least greatest }
{
    match value {
        None => Err(Cause::OutOfRange(least, greatest)),
        Some(value) => within(value, least, greatest),
    }
}
