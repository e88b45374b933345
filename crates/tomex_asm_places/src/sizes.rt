//! How many bytes the data of a statement has.

ghost use Rattle.std.specs.Prelude.{◌≡◌, ◌+◌, ◌-◌, ◌≤◌, min, length, take, drop, ◌^◌, ◌∷◌, []};
ghost use Rattle.tomex_asm_places.specs.Places.{count_values, inner, is_string, strings_size};

use tomex_asm_text::text_of;
use tomex_asm_tokens::{Mark, Sort, Token, string_length};

/// What is between a string's quotes.
pub fn inner(text: &[u8]) -> &[u8]
    ensures { result.now ≡ inner text.now }
{
    match text {
        [_, inner @ .., _] => inner,
        _ => &[],
    }
}

pub fn is_string(sort: Sort) -> bool
    ensures { result ≡ is_string sort }
{
    matches!(sort, Sort::Text)
}

/// How many values there are, with commas between them.
pub(crate) fn count_values(values: &[Token]) -> usize
    ensures { result ≡ count_values values.now }
{
    let mut count = 1;
    for token in values {
        if token.is_mark(Mark::Comma) {
            count += 1;
        }
    }
    count
}

/// The bytes of a string, with a zero after it if the flag is set; none if the token isn't one. The greatest number if
/// 64 bits don't hold it.
fn string_size(line: &[u8], with_zero: bool, token: Token) -> usize
    ensures { result ≡ min (strings_size line.now with_zero (token ∷ [])) (2 ^ 64 - 1) }
{
    if !is_string(token.sort) {
        return 0;
    }
    let length = string_length(inner(text_of(line, token)));
    length.saturating_add(usize::from(with_zero))
}

/// The bytes of strings with commas between them, if 64 bits hold the number, else the greatest number.
pub(crate) fn strings_size(line: &[u8], with_zero: bool, strings: &[Token]) -> usize
    ensures { result ≡ min (strings_size line.now with_zero strings.now) (2 ^ 64 - 1) }
{
    let mut size: usize = 0;
    for token in strings {
        size = size.saturating_add(string_size(line, with_zero, *token));
    }
    size
}
