//! Values, and lists of values.

ghost use Rattle.std.specs.Prelude.{◌≡◌, ◌≤◌, IfOk, length};
ghost use Rattle.tomex_asm_text.specs.Values.{is_joint, is_operand, step_of, value_from, value_at, values_at};
ghost use Rattle.tomex_asm_text.specs.declared.value.Position.TheVariants.{Atom};
ghost use Rattle.tomex_asm_tokens.specs.Reading.{Reads};

use crate::reading::{is_register, lack};
use tomex_asm_tokens::{Cause, Fault, Mark, Sort, Thing, Token};

/// What may come next in a value.
#[derive(Clone, Copy)]
pub enum Position {
    /// A product's next factor, with its sign.
    Atom,
    /// A factor, after its sign.
    Operand,
    /// What joins the next factor, or what follows the value.
    After,
}

/// What a token is to a value.
#[derive(Clone, Copy)]
pub enum Step {
    /// It belongs to the value.
    Goes(Position),
    /// It follows the value.
    Stops,
    /// It is where the value lacks something.
    Lacks,
}

fn is_operand(line: &[u8], token: Token) -> bool
    ensures { result ≡ is_operand line.now token }
{
    match token.sort {
        Sort::Word => !is_register(line, token),
        Sort::Decimal(_) | Sort::Number(_) | Sort::Above | Sort::Below => true,
        Sort::Text | Sort::Mark(_) => false,
    }
}

fn is_joint(is_list: bool, token: Token) -> bool
    ensures { result ≡ is_joint is_list token }
{
    match token.sort {
        Sort::Mark(Mark::Plus | Mark::Minus | Mark::Star) => true,
        Sort::Mark(Mark::Comma) => is_list,
        _ => false,
    }
}

/// One token more of a value, or of a list of values.
fn step_of(is_list: bool, line: &[u8], position: Position, token: Token) -> Step
    ensures { result ≡ step_of is_list line.now position token }
{
    match position {
        Position::Atom if token.is_mark(Mark::Minus) => Step::Goes(Position::Operand),
        Position::Atom | Position::Operand => if is_operand(line, token) {
            Step::Goes(Position::After)
        } else {
            Step::Lacks
        },
        Position::After => if is_joint(is_list, token) {
            Step::Goes(Position::Atom)
        } else {
            Step::Stops
        },
    }
}

/// How many tokens the value takes, or the list of values.
fn value_size(is_list: bool, line: &[u8], rest: &[Token]) -> Result<usize, Fault>
    ensures value { result ≡ value_from is_list line.now Atom rest.now }
    ensures within { IfOk result (λ size. size ≤ length rest.now) }
{
    let mut position = Position::Atom;
    for (size, token) in rest.iter().enumerate() {
        match step_of(is_list, line, position, *token) {
            Step::Goes(next) => position = next,
            Step::Stops => return Ok(size),
            Step::Lacks => return Err(Fault {
                at: token.from,
                cause: Cause::Expected(Thing::Value),
            }),
        }
    }
    match position {
        Position::After => Ok(rest.len()),
        Position::Atom | Position::Operand => Err(lack(line, &[], Thing::Value)),
    }
}

/// The value with which the rest begins, and what follows it.
#[tactic(auto, unfolding(crate::specs::Values::value_at))]
pub(crate) fn value_at<'a>(
    line: &[u8],
    rest: &'a [Token],
) -> Result<(&'a [Token], &'a [Token]), Fault>
    ensures { Reads (λ x. (x.0.now, x.1.now)) result (value_at line.now rest.now) }
{
    Ok(rest.split_at(value_size(false, line, rest)?))
}

/// The same for values with commas between them.
#[tactic(auto, unfolding(crate::specs::Values::values_at))]
pub(crate) fn values_at<'a>(
    line: &[u8],
    rest: &'a [Token],
) -> Result<(&'a [Token], &'a [Token]), Fault>
    ensures { Reads (λ x. (x.0.now, x.1.now)) result (values_at line.now rest.now) }
{
    Ok(rest.split_at(value_size(true, line, rest)?))
}
