//! Numbers: constants and addresses, and sums and products of them.

ghost use Rattle.std.specs.Prelude.{◌≡◌, ◌+ℤ◌, ◌-ℤ◌, ◌*ℤ◌, ℤ, pos, negsuc, Option, Some, None};
ghost use Rattle.std.specs.Int.{w64};
ghost use Rattle.std.specs.Option.{SomeIff};
ghost use Rattle.std.specs.Prelude.{FitsSigned};
ghost use Rattle.tomex_asm_numbers.specs.Numbers.{constant_of, address_in, within, made, is_same, section_of_sum};
ghost use Rattle.tomex_asm_numbers.specs.Numbers.{section_of_difference, section_of_product, sum, difference, product};

use tomex_asm_text::Section;
use tomex_asm_tokens::{Cause, GREATEST, LEAST};

/// A constant, or the address of a byte of a section: how far it is from where the section begins.
#[derive(Clone, Copy)]
pub struct Number {
    pub section: Option<Section>,
    pub offset: i64,
}

impl Number {
    pub fn constant(value: i64) -> Number
        ensures { result ≡ constant_of value }
    {
        Number {
            section: None,
            offset: value,
        }
    }

    pub fn address(section: Section, offset: u32) -> Number
        ensures { result ≡ address_in section (pos offset) }
    {
        Number {
            section: Some(section),
            offset: i64::from(offset),
        }
    }
}

/// The value, if it is from `least` to `greatest`.
pub fn within(value: i64, least: i64, greatest: i64) -> Result<i64, Cause>
    ensures { result ≡ within value least greatest }
{
    if value < least || value > greatest {
        Err(Cause::OutOfRange(least, greatest))
    } else {
        Ok(value)
    }
}

/// The number of a section at an offset that was computed, if a value can be it. `None` is an offset that 64 bits don't
/// hold.
fn made(section: Result<Option<Section>, Cause>, offset: Option<i64>) -> Result<Number, Cause>
    ensures { (z : ℤ) → SomeIff offset (FitsSigned w64 z) z → result ≡ made section z }
{
    let section = section?;
    match offset {
        None => Err(Cause::OutOfRange(LEAST, GREATEST)),
        Some(offset) => Ok(Number {
            section,
            offset: within(offset, LEAST, GREATEST)?,
        }),
    }
}

/// True if the sections are the same.
fn is_same(first: Section, second: Section) -> bool
    ensures { result ≡ is_same first second }
{
    match first {
        Section::Text => matches!(second, Section::Text),
        Section::Data => matches!(second, Section::Data),
    }
}

fn section_of_sum(first: Option<Section>, second: Option<Section>) -> Result<Option<Section>, Cause>
    ensures { result ≡ section_of_sum first second }
{
    match (first, second) {
        (_, None) => Ok(first),
        (None, Some(_)) => Ok(second),
        (Some(_), Some(_)) => Err(Cause::BadSum),
    }
}

fn section_of_difference(
    first: Option<Section>,
    second: Option<Section>,
) -> Result<Option<Section>, Cause>
    ensures { result ≡ section_of_difference first second }
{
    match (first, second) {
        (_, None) => Ok(first),
        (Some(one), Some(other)) if is_same(one, other) => Ok(None),
        _ => Err(Cause::BadSum),
    }
}

fn section_of_product(
    first: Option<Section>,
    second: Option<Section>,
) -> Result<Option<Section>, Cause>
    ensures { result ≡ section_of_product first second }
{
    match (first, second) {
        (None, None) => Ok(None),
        _ => Err(Cause::BadSum),
    }
}

/// The sum, of which at most one number is an address.
pub(crate) fn sum(first: Number, second: Number) -> Result<Number, Cause>
    ensures { result ≡ sum first second }
{
    let section = section_of_sum(first.section, second.section);
    made(section, first.offset.checked_add(second.offset))
}

/// The difference: of an address and a constant an address, of two addresses in a section a constant.
pub(crate) fn difference(first: Number, second: Number) -> Result<Number, Cause>
    ensures { result ≡ difference first second }
{
    let section = section_of_difference(first.section, second.section);
    made(section, first.offset.checked_sub(second.offset))
}

/// The product of two constants.
pub(crate) fn product(first: Number, second: Number) -> Result<Number, Cause>
    ensures { result ≡ product first second }
{
    let section = section_of_product(first.section, second.section);
    made(section, first.offset.checked_mul(second.offset))
}
