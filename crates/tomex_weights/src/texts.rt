//! The texts of spans.

ghost use Rattle.std.specs.Prelude.{◌≡◌, IfOk, OnOk, string_bytes};
ghost use Rattle.tomex_layout.specs.Growth.{Appends};
ghost use Rattle.tomex_weights.specs.Texts.{first_text, last_text, span_text};

use crate::listed::has_weights;
use crate::spans::GREATEST_WEIGHT;
use std::alloc::{AllocError, Global};
use tomex_layout::push_hundredths;
use tomex_pareto::ValueSpan;

/// Adds the first weight of a span, except if it is the least one.
pub(crate) fn push_first(text: &mut String, span: ValueSpan) -> Result<(), AllocError>
    ensures { OnOk result (Appends (first_text span) text.old text.new) }
{
    if span.first > 1 {
        push_hundredths(text, u128::from(span.first))?;
    }
    Ok(())
}

/// Adds the last weight of a span, except if it is the greatest one.
pub(crate) fn push_last(text: &mut String, span: ValueSpan) -> Result<(), AllocError>
    ensures { OnOk result (Appends (last_text span) text.old text.new) }
{
    if span.end <= GREATEST_WEIGHT {
        push_hundredths(text, u128::from(span.end.saturating_sub(1)))?;
    }
    Ok(())
}

/// The text of a span of weights, as `0.17..46.88`, `..5.54`, `2.18..` or `any`: both ends are still inside, and one at
/// 0.01 or at 1000.00 isn't shown. `-` if no weight is in it.
#[tactic(auto, unfolding(crate::specs::Texts::span_text))]
pub fn span_text(heap: Global, span: ValueSpan) -> Result<String, AllocError>
    ensures { IfOk result (λ text. string_bytes text ≡ span_text span) }
{
    if !has_weights(span) {
        return format!(in heap; "-");
    }
    if span.first <= 1 && span.end > GREATEST_WEIGHT {
        return format!(in heap; "any");
    }
    let mut text = String::new(heap);
    push_first(&mut text, span)?;
    text.push_str("..")?;
    push_last(&mut text, span)?;
    Ok(text)
}
