//! Lists of names, and of strings.

ghost use Rattle.std.specs.Prelude.{◌≡◌, ◌≤◌, IfOk, length, false};
ghost use Rattle.tomex_asm_tokens.specs.Reading.{Reads};
ghost use Rattle.tomex_asm_text.specs.Directives.{element_fault, element_end, elements_from, elements_at};

use crate::reading::{lack, name_fault};
use tomex_asm_tokens::{Cause, Fault, Mark, Sort, Thing, Token};

/// What the elements of a list are.
#[derive(Clone, Copy)]
pub enum Element {
    Name,
    /// A string.
    Text,
}

/// Why a token can't be an element of a list.
fn element_fault(element: Element, line: &[u8], token: Token) -> Option<Cause>
    ensures { result ≡ element_fault element line.now token }
{
    match element {
        Element::Name => name_fault(line, token),
        Element::Text => match token.sort {
            Sort::Text => None,
            _ => Some(Cause::Expected(Thing::Text)),
        },
    }
}

/// The refusal of a list that ends without an element after its last comma.
fn element_end(element: Element, line: &[u8]) -> Result<usize, Fault>
    ensures { result ≡ element_end element line.now }
{
    let thing = match element {
        Element::Name => Thing::Name,
        Element::Text => Thing::Text,
    };
    Err(lack(line, &[], thing))
}

/// How many tokens the list takes.
fn elements_size(element: Element, line: &[u8], rest: &[Token]) -> Result<usize, Fault>
    ensures value { result ≡ elements_from element line.now false rest.now }
    ensures within { IfOk result (λ size. size ≤ length rest.now) }
{
    let mut has_element = false;
    for (size, token) in rest.iter().enumerate() {
        if has_element {
            if !token.is_mark(Mark::Comma) {
                return Ok(size);
            }
            has_element = false;
        } else {
            if let Some(cause) = element_fault(element, line, *token) {
                return Err(Fault {
                    at: token.from,
                    cause,
                });
            }
            has_element = true;
        }
    }
    if has_element {
        Ok(rest.len())
    } else {
        element_end(element, line)
    }
}

/// The list with which the rest begins, and what follows it.
#[tactic(auto, unfolding(crate::specs::Directives::elements_at))]
pub(crate) fn elements_at<'a>(
    element: Element,
    line: &[u8],
    rest: &'a [Token],
) -> Result<(&'a [Token], &'a [Token]), Fault>
    ensures { Reads (λ x. (x.0.now, x.1.now)) result (elements_at element line.now rest.now) }
{
    Ok(rest.split_at(elements_size(element, line, rest)?))
}
