//! Cycles for 1 of cost, as texts.

ghost use Rattle.std.specs.Prelude.{◌≡◌, IfOk, OnOk, string_bytes};
ghost use Rattle.tomex_pareto.specs.Front.{dominates};
ghost use Rattle.tomex_layout.specs.Growth.{Appends};
ghost use Rattle.tomex_layout.specs.Rates.{rate_text};

use crate::hundredths::push_hundredths;
use std::alloc::{AllocError, Allocator, Global};
use tomex_pareto::FrontRow;

/// True if a row dominates another.
fn dominates(a: FrontRow, b: FrontRow) -> bool
    ensures { result ≡ dominates a b }
{
    a.cost <= b.cost && a.cycles <= b.cycles && (a.cost < b.cost || a.cycles < b.cycles)
}

/// Adds the cycles for 1 of cost between two rows, or the reason why there is no such number.
#[tactic(auto, unfolding(crate::specs::Rates::rate_text))]
pub fn push_rate<A: Allocator>(
    text: &mut String<A>,
    own: FrontRow,
    other: FrontRow,
) -> Result<(), AllocError>
    ensures { OnOk result (Appends (rate_text own other) text.old text.new) }
{
    if dominates(other, own) {
        return text.push_str("better");
    }
    if dominates(own, other) {
        return text.push_str("worse");
    }
    if other.cost == own.cost {
        return text.push_str("same");
    }
    let cycles = u128::from(own.cycles.abs_diff(other.cycles));
    push_hundredths(
        text,
        cycles * 100 / u128::from(own.cost.abs_diff(other.cost)),
    )
}

/// Cycles for 1 of cost between two rows, or the reason why there is no such number.
pub fn rate_text(heap: Global, own: FrontRow, other: FrontRow) -> Result<String, AllocError>
    ensures { IfOk result (λ text. string_bytes text ≡ rate_text own other) }
{
    let mut text = String::new(heap);
    push_rate(&mut text, own, other)?;
    Ok(text)
}
