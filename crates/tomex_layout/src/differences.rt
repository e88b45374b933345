//! Differences as texts.

ghost use Rattle.std.specs.Prelude.{◌≡◌, IfOk, OnOk, string_bytes};
ghost use Rattle.tomex_layout.specs.Growth.{Appends};
ghost use Rattle.tomex_layout.specs.Differences.{distance, percent, sign_of, signed_difference, tenths};

use std::alloc::{AllocError, Allocator, Global};
use std::fmt::Write;

/// The sign of `b - a`.
fn sign_of(a: u64, b: u64) -> &'static str
    ensures { result.now ≡ sign_of a b }
{
    if a < b { "+" } else { "-" }
}

/// Adds `b - a`, as in `+6`, `-9426` and `0`.
#[tactic(auto, unfolding(crate::specs::Differences::signed_difference))]
pub fn push_signed<A: Allocator>(text: &mut String<A>, a: u64, b: u64) -> Result<(), AllocError>
    ensures { OnOk result (Appends (signed_difference a b) text.old text.new) }
{
    if a == b {
        return text.push_str("0");
    }
    let (sign, distance) = (sign_of(a, b), a.abs_diff(b));
    write!(text, "{sign}{distance}")
}

/// The text of `b - a`.
pub fn signed_difference(heap: Global, a: u64, b: u64) -> Result<String, AllocError>
    ensures { IfOk result (λ text. string_bytes text ≡ signed_difference a b) }
{
    let mut text = String::new(heap);
    push_signed(&mut text, a, b)?;
    Ok(text)
}

/// Adds `b - a` in percent of `a`, with one digit after the point, rounded towards 0.
#[tactic(auto, unfolding(crate::specs::Differences::percent, crate::specs::Differences::tenths))]
pub fn push_percent<A: Allocator>(text: &mut String<A>, a: u64, b: u64) -> Result<(), AllocError>
    ensures { OnOk result (Appends (percent a b) text.old text.new) }
{
    if a == b {
        return text.push_str("0");
    }
    let sign = sign_of(a, b);
    let distance = u128::from(a.abs_diff(b));
    let thousandths = (distance * 1000).checked_div(u128::from(a)).unwrap_or(0);
    let (whole, tenth) = (thousandths / 10, thousandths % 10);
    write!(text, "{sign}{whole}.{tenth}")
}

/// The text of `b - a` in percent of `a`.
pub fn percent(heap: Global, a: u64, b: u64) -> Result<String, AllocError>
    ensures { IfOk result (λ text. string_bytes text ≡ percent a b) }
{
    let mut text = String::new(heap);
    push_percent(&mut text, a, b)?;
    Ok(text)
}
