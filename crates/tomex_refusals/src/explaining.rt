//! Explanations of refusals.

ghost use Rattle.std.specs.Prelude.{◌≡◌, ◌++◌, None, IfErr, IfOk, OnOk, string_bytes};
ghost use Rattle.std.specs.List.{flat_map};
ghost use Rattle.tomex_refusals.specs.Explanations.{IsExplained, IsUnexplained};
ghost use Rattle.tomex_refusals.specs.Refusals.{IsFirstIn, all_refusals, explanation_of};
ghost use Rattle.tomex_refusals.specs.Refusals.{line_of, refusal_lines, text_of_found};

use crate::longest_words::part_of;
use crate::refusal::{Refusal, refusal_in, refusals_with};
use std::alloc::{AllocError, Allocator};

/// Why there is no explanation.
#[derive(Clone, Copy)]
pub enum ExplainError {
    /// The words don't name a refusal.
    NoSuchRefusal,
    /// Out of memory for the text.
    Memory,
}

impl From<AllocError> for ExplainError {
    ghost use Rattle.std.specs.Prelude.{◌≡◌};
    ghost use Rattle.tomex_refusals.specs.declared.explaining.ExplainError.TheVariants as errors;

    ghost from_gives = { λ _ error. error ≡ errors.Memory };

    fn from(_error: AllocError) -> ExplainError {
        ExplainError::Memory
    }
}

/// The text that explains a refusal.
fn explanation_of<A: Allocator>(alloc: A, refusal: Refusal) -> Result<Vec<u8, A>, AllocError>
    ensures { IfOk result (λ text. text.items ≡ explanation_of refusal) }
{
    let mut text = String::new(alloc);
    text.push_str(refusal.form())?;
    text.push_str("\n")?;
    text.push_str(refusal.advice())?;
    Ok(text.into_bytes())
}

/// The text of refusals that were found by a part of their lines: a single one is explained, several are listed.
fn text_of_found<A: Allocator>(alloc: A, found: &[Refusal]) -> Result<Vec<u8, A>, AllocError>
    ensures { IfOk result (λ text. text.items ≡ text_of_found found.now) }
{
    match found {
        [refusal] => explanation_of(alloc, *refusal),
        refusals => lines_of(alloc, refusals),
    }
}

/// The explanation of the refusal whose line has a part of these words in it, or the list of those that have.
fn explain_part<A: Allocator, B: Allocator>(
    alloc: A,
    heap: B,
    words: &str,
) -> Result<Vec<u8, A>, ExplainError>
    requires { IsFirstIn words.now all_refusals None }
    ensures text { IfOk result (λ text. IsExplained words.now text.items) }
    ensures refused { IfErr result (λ error. IsUnexplained words.now error) }
{
    let Some(part) = part_of(words) else {
        return Err(ExplainError::NoSuchRefusal);
    };
    let found = refusals_with(heap, part)?;
    Ok(text_of_found(alloc, found.as_slice())?)
}

/// The explanation of the refusal in these words: how it looks, and then at most eleven lines on
/// what it means, its usual causes, and what to do. Text before and after its own words doesn't
/// matter.
///
/// If the words are no refusal's, they are looked for in the lines of the list, and if none has them the longest of the
/// words that one has. If several have it these lines are the text, a single one is explained. They are gathered in
/// `heap`.
pub fn explain<A: Allocator, B: Allocator>(
    alloc: A,
    heap: B,
    words: &str,
) -> Result<Vec<u8, A>, ExplainError>
    ensures text { IfOk result (λ text. IsExplained words.now text.items) }
    ensures refused { IfErr result (λ error. IsUnexplained words.now error) }
{
    match refusal_in(words) {
        Some(refusal) => Ok(explanation_of(alloc, refusal)?),
        None => explain_part(alloc, heap, words),
    }
}

fn push_line<A: Allocator>(text: &mut String<A>, refusal: Refusal) -> Result<(), AllocError>
    ensures { OnOk result (string_bytes text.new ≡ string_bytes text.old ++ line_of refusal) }
{
    text.push_str(refusal.form())?;
    text.push_str("\n")
}

/// Refusals, each on a line.
fn lines_of<A: Allocator>(alloc: A, refusals: &[Refusal]) -> Result<Vec<u8, A>, AllocError>
    ensures { IfOk result (λ text. text.items ≡ flat_map line_of refusals.now) }
{
    let mut text = String::new(alloc);
    for refusal in refusals {
        push_line(&mut text, *refusal)?;
    }
    Ok(text.into_bytes())
}

/// All refusals, each on a line.
#[tactic(auto, unfolding(crate::specs::Refusals::refusal_lines))]
pub fn list_refusals<A: Allocator>(alloc: A) -> Result<Vec<u8, A>, AllocError>
    ensures { IfOk result (λ text. text.items ≡ refusal_lines) }
{
    lines_of(alloc, Refusal::ALL.as_slice())
}
