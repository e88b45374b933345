//! Words that begin with a digit.

ghost use Rattle.std.specs.Prelude.{◌≡◌, ◌<◌, ◌≤◌, ◌^◌, length, drop, nat_lt, if◌then◌else◌};
ghost use Rattle.std.specs.Char.{digit_value, is_ascii_digit};
ghost use Rattle.std.specs.List.{list_all};
ghost use Rattle.std.specs.Str.Parse.{digits_value};
ghost use Rattle.tomex_asm_tokens.specs.Characters.{is_hexadecimal, is_binary};
ghost use Rattle.tomex_asm_tokens.specs.Tokens.{is_decimal, is_based, is_local, bounded, numeral};

use crate::cause::Cause;
use crate::token::Sort;

/// The least value and the greatest: what 32 bits hold, with a sign or without.
pub const LEAST: i64 = -2147483648;

pub const GREATEST: i64 = 4294967295;

fn are_decimal(digits: &[u8]) -> bool
    ensures { result ≡ list_all is_ascii_digit digits.now }
{
    digits.iter().all(|digit| digit.is_ascii_digit())
}

fn are_hexadecimal(digits: &[u8]) -> bool
    ensures { result ≡ list_all is_hexadecimal digits.now }
{
    digits.iter().all(|digit| digit_value(*digit) < 16)
}

fn are_binary(digits: &[u8]) -> bool
    ensures { result ≡ list_all is_binary digits.now }
{
    digits.iter().all(|digit| *digit == b'0' || *digit == b'1')
}

/// True if the word is 0, or digits without a leading 0.
fn is_decimal(word: &[u8]) -> bool
    ensures { result ≡ is_decimal word.now }
{
    match word {
        [] => false,
        [first, rest @ ..] => { are_decimal(word) && (rest.is_empty() || *first != b'0') }
    }
}

/// True if the word is `0x` and hexadecimal digits.
fn is_hexadecimal(word: &[u8]) -> bool
    ensures { result ≡ is_based 120 is_hexadecimal word.now }
{
    match word {
        [b'0', b'x', digits @ ..] => !digits.is_empty() && are_hexadecimal(digits),
        _ => false,
    }
}

/// True if the word is `0b` and binary digits.
fn is_binary(word: &[u8]) -> bool
    ensures { result ≡ is_based 98 is_binary word.now }
{
    match word {
        [b'0', b'b', digits @ ..] => !digits.is_empty() && are_binary(digits),
        _ => false,
    }
}

/// True if the word is a decimal number with this letter after it.
fn is_local(word: &[u8], letter: u8) -> bool
    ensures { result ≡ is_local letter word.now }
{
    match word {
        [] => false,
        [front @ .., last] => *last == letter && is_decimal(front),
    }
}

/// What a digit stands for in a base up to 36, and 36 for any other byte.
pub(crate) fn digit_value(digit: u8) -> u8
    ensures value { result ≡ digit_value digit }
    ensures small { result ≤ 36 }
{
    match digit {
        b'0'..=b'9' => digit - b'0',
        b'A'..=b'Z' => digit - b'A' + 10,
        b'a'..=b'z' => digit - b'a' + 10,
        _ => 36,
    }
}

/// The number that the digits mean in a base, if 32 bits hold it.
fn value_of(digits: &[u8], base: u8) -> Option<u32>
    requires one { 0 < base }
    requires base { base ≤ 16 }
    ensures { result
        ≡ (if nat_lt (digits_value base digits.now) (2 ^ 32) then Some (digits_value base digits.now) else None) }
{
    let mut value: u64 = 0;
    for digit in digits {
        value = (value * u64::from(base) + u64::from(digit_value(*digit))).min(1 << 32);
    }
    u32::try_from(value).ok()
}

/// The number that decimal digits mean, if 32 bits hold it.
fn decimal(digits: &[u8]) -> Result<Sort, Cause>
    ensures { result ≡ bounded Sort.Decimal (digits_value 10 digits.now) }
{
    match value_of(digits, 10) {
        Some(value) => Ok(Sort::Decimal(value)),
        None => Err(Cause::OutOfRange(LEAST, GREATEST)),
    }
}

/// The number that a word means in a base, if 32 bits hold it. The digits begin after two bytes.
fn prefixed(word: &[u8], base: u8) -> Result<Sort, Cause>
    requires one { 0 < base }
    requires base { base ≤ 16 }
    requires two { 2 ≤ length word.now }
    ensures { result ≡ bounded Sort.Number (digits_value base (drop 2 word.now)) }
{
    match value_of(&word[2..], base) {
        Some(value) => Ok(Sort::Number(value)),
        None => Err(Cause::OutOfRange(LEAST, GREATEST)),
    }
}

/// What a word that begins with a digit is.
pub(crate) fn numeral(word: &[u8]) -> Result<Sort, Cause>
    ensures { result ≡ numeral word.now }
{
    if is_decimal(word) {
        decimal(word)
    } else if is_hexadecimal(word) {
        prefixed(word, 16)
    } else if is_binary(word) {
        prefixed(word, 2)
    } else if is_local(word, b'b') {
        Ok(Sort::Above)
    } else if is_local(word, b'f') {
        Ok(Sort::Below)
    } else {
        Err(Cause::BadNumber)
    }
}
