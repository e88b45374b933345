//! The number that a value is.

ghost use Rattle.std.specs.Prelude.{◌≡◌, Bool, map, ◌-◌, length, take, Result, ℕ};
ghost use Rattle.std.specs.Option.{option_copied};
ghost use Rattle.tomex_asm_tokens.specs.Reading.{Reads};
ghost use Rattle.tomex_asm_numbers.specs.Indexed.{IsIndexed, scope_of};
ghost use Rattle.tomex_asm_numbers.specs.Values.{after_token, at_place, constant, digits_of, found, joined, last_above};
ghost use Rattle.tomex_asm_numbers.specs.Values.{named_number, next_below, nothing_yet, operand, or_missing};
ghost use Rattle.tomex_asm_numbers.specs.Values.{place_of_value, signed, times, value_from, value_of, with_next};

use crate::number::{Number, difference, product, sum, within};
use crate::table::Table;
use std::alloc::Allocator;
use tomex_asm_text::text_of;
use tomex_asm_tokens::{Cause, Fault, Mark, Sort, Thing, Token};

/// What the words of a line stand for.
#[derive(Clone, Copy)]
pub struct Scope<'s, 'a, A: Allocator + Clone> {
    /// What is defined above.
    pub above: &'s Table<'a, A>,
    /// What is defined in all.
    pub whole: &'s Table<'a, A>,
    /// What `.` is.
    pub here: Number,
    /// Why a value is refused if a word isn't defined.
    pub missing: Cause,
}

/// What comes next in a value.
#[derive(Clone, Copy)]
pub enum Next {
    /// A factor, after those of which this is the product, if there are any; with the other sign if the flag is set.
    Factor(Option<Number>, bool),
    /// What joins the next factor, or nothing, after the factors of which this is the product.
    Joint(Number),
}

/// A value as far as it is read.
#[derive(Clone, Copy)]
pub struct Partial {
    /// The sum of the products before the last one.
    pub sum: Number,
    /// True if the last product is taken away.
    pub is_less: bool,
    pub next: Next,
}

/// A local label's word without its letter.
fn digits_of(word: &[u8]) -> &[u8]
    ensures { result.now ≡ digits_of word.now }
{
    match word {
        [] => word,
        [digits @ .., _] => digits,
    }
}

impl<'s, 'a, A: Allocator + Clone> Scope<'s, 'a, A> {
    /// The last local label above with these digits.
    fn last_above(&self, digits: &'a [u8]) -> Option<Number>
        requires above { IsIndexed self.now.above.now }
        requires whole { IsIndexed self.now.whole.now }
        ensures { result ≡ last_above (scope_of self.now) digits.now }
    {
        let count = self.above.numbers_of(digits).len();
        if count == 0 {
            return None;
        }
        self.whole.numbers_of(digits).get(count - 1).copied()
    }

    /// The next local label below with these digits.
    fn next_below(&self, digits: &'a [u8]) -> Option<Number>
        requires above { IsIndexed self.now.above.now }
        requires whole { IsIndexed self.now.whole.now }
        ensures { result ≡ next_below (scope_of self.now) digits.now }
    {
        let count = self.above.numbers_of(digits).len();
        self.whole.numbers_of(digits).get(count).copied()
    }

    fn named_number(&self, word: &'a [u8]) -> Option<Number>
        requires whole { IsIndexed self.now.whole.now }
        ensures { result ≡ named_number (scope_of self.now) word.now }
    {
        if word == b".".as_slice() {
            Some(self.here)
        } else {
            self.whole.numbers_of(word).get(0).copied()
        }
    }

    fn found(&self, sort: Sort, word: &'a [u8]) -> Option<Number>
        requires above { IsIndexed self.now.above.now }
        requires whole { IsIndexed self.now.whole.now }
        ensures { result ≡ found (scope_of self.now) sort word.now }
    {
        match sort {
            Sort::Decimal(n) | Sort::Number(n) => Some(Number::constant(i64::from(n))),
            Sort::Above => self.last_above(digits_of(word)),
            Sort::Below => self.next_below(digits_of(word)),
            Sort::Word | Sort::Text | Sort::Mark(_) => self.named_number(word),
        }
    }

    /// The number of a factor.
    fn operand(&self, line: &'a [u8], token: Token) -> Result<Number, Fault>
        requires above { IsIndexed self.now.above.now }
        requires whole { IsIndexed self.now.whole.now }
        ensures { result ≡ operand (scope_of self.now) line.now token }
    {
        match self.found(token.sort, text_of(line, token)) {
            Some(number) => Ok(number),
            None => Err(Fault {
                at: token.from,
                cause: self.missing,
            }),
        }
    }
}

/// A factor with its sign.
fn signed(is_negative: bool, factor: Number) -> Result<Number, Cause>
    ensures { result ≡ signed is_negative factor }
{
    if is_negative {
        product(Number::constant(-1), factor)
    } else {
        Ok(factor)
    }
}

/// The product with one factor more.
fn times(before: Option<Number>, is_negative: bool, factor: Number) -> Result<Number, Cause>
    ensures { result ≡ times before (signed is_negative factor) }
{
    let factor = signed(is_negative, factor)?;
    match before {
        None => Ok(factor),
        Some(before) => product(before, factor),
    }
}

/// The sum with one product more.
fn joined(partial: Partial, last: Number) -> Result<Number, Cause>
    ensures { result ≡ joined partial last }
{
    if partial.is_less {
        difference(partial.sum, last)
    } else {
        sum(partial.sum, last)
    }
}

/// A refusal that is about a whole value is where the value begins.
pub fn at_place<T: Copy>(place: usize, answer: Result<T, Cause>) -> Result<T, Fault>
    ensures { result ≡ at_place place answer }
{
    match answer {
        Ok(value) => Ok(value),
        Err(cause) => Err(Fault { at: place, cause }),
    }
}

fn with_next(partial: Partial, next: Next) -> Partial
    ensures { result ≡ with_next partial next }
{
    Partial {
        sum: partial.sum,
        is_less: partial.is_less,
        next,
    }
}

impl<'s, 'a, A: Allocator + Clone> Scope<'s, 'a, A> {
    /// A value with one token more. The value begins at `begin`.
    fn after_token(
        &self,
        line: &'a [u8],
        begin: usize,
        partial: Partial,
        token: Token,
    ) -> Result<Partial, Fault>
        requires above { IsIndexed self.now.above.now }
        requires whole { IsIndexed self.now.whole.now }
        ensures { result ≡ after_token (scope_of self.now) line.now begin partial partial.next token }
    {
        match partial.next {
            Next::Factor(before, is_negative) => {
                if token.is_mark(Mark::Minus) {
                    return Ok(with_next(partial, Next::Factor(before, true)));
                }
                let factor = self.operand(line, token)?;
                let last = at_place(begin, times(before, is_negative, factor))?;
                Ok(with_next(partial, Next::Joint(last)))
            }
            Next::Joint(last) => {
                if token.is_mark(Mark::Star) {
                    return Ok(with_next(partial, Next::Factor(Some(last), false)));
                }
                let sum = at_place(begin, joined(partial, last))?;
                Ok(Partial {
                    sum,
                    is_less: token.is_mark(Mark::Minus),
                    next: Next::Factor(None, false),
                })
            }
        }
    }

    /// The number that a value is.
    #[tactic(auto, unfolding(crate::specs::Values::value_of))]
    pub fn value(&self, line: &'a [u8], tokens: &[Token]) -> Result<Number, Fault>
        requires above { IsIndexed self.now.above.now }
        requires whole { IsIndexed self.now.whole.now }
        ensures { result ≡ value_of (scope_of self.now) line.now tokens.now }
    {
        let begin = place_of_value(tokens);
        let mut partial = Partial {
            sum: Number::constant(0),
            is_less: false,
            next: Next::Factor(None, false),
        };
        for token in tokens {
            partial = self.after_token(line, begin, partial, *token)?;
        }
        match partial.next {
            Next::Joint(last) => at_place(begin, joined(partial, last)),
            Next::Factor(_, _) => Err(Fault {
                at: begin,
                cause: Cause::Expected(Thing::Value),
            }),
        }
    }

    /// The value, which has to be a constant from `least` to `greatest`.
    pub fn constant(
        &self,
        line: &'a [u8],
        tokens: &[Token],
        least: i64,
        greatest: i64,
    ) -> Result<i64, Fault>
        requires above { IsIndexed self.now.above.now }
        requires whole { IsIndexed self.now.whole.now }
        ensures { result ≡ constant (scope_of self.now) line.now tokens.now least greatest }
    {
        let number = self.value(line, tokens)?;
        let begin = place_of_value(tokens);
        match number.section {
            Some(_) => Err(Fault {
                at: begin,
                cause: Cause::Expected(Thing::Constant),
            }),
            None => at_place(begin, within(number.offset, least, greatest)),
        }
    }
}

/// Where a value begins.
pub fn place_of_value(tokens: &[Token]) -> usize
    ensures { result ≡ place_of_value tokens.now }
{
    match tokens {
        [] => 0,
        [token, ..] => token.from,
    }
}
