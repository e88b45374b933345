//! Numbers of hundredths.

ghost use Rattle.std.specs.Prelude.{OnOk};
ghost use Rattle.tomex_layout.specs.Hundredths.{hundredths};
ghost use Rattle.tomex_layout.specs.Growth.{Appends};

use std::alloc::{AllocError, Allocator};
use std::fmt::Write;

/// Adds a number of hundredths, with two digits after the point.
#[tactic(auto, unfolding(crate::specs::Hundredths::hundredths))]
pub fn push_hundredths<A: Allocator>(text: &mut String<A>, number: u128) -> Result<(), AllocError>
    ensures { OnOk result (Appends (hundredths number) text.old text.new) }
{
    let (whole, tenth, hundredth) = (number / 100, number % 100 / 10, number % 10);
    write!(text, "{whole}.{tenth}{hundredth}")
}
