//! The prices at which a row stays on the front.

ghost use Rattle.std.specs.Prelude.{◌≡◌, ℕ, ◌≤◌, true, All, map};
ghost use Rattle.std.specs.List.{Contains};
ghost use Rattle.tomex_pareto.specs.Pareto.{AreNumbered};
ghost use Rattle.tomex_pareto.specs.Front.{is_on};
ghost use Rattle.tomex_pareto.specs.Spans.{as_cost, on_front, stays};
ghost use Rattle.tomex_study.specs.StudyFront.{front_of_study};
ghost use Rattle.tomex_prices.specs.Interval.{IsSmall, interval, is_within, range_of};
ghost use Rattle.tomex_prices.specs.Studies.{interval_of, space_with, rows_with};

use crate::price::{GREATEST_PRICE, Price};
use crate::priced_row::with_price_apart;
use std::alloc::Allocator;
use std::fmt;
use tomex_pareto::{FrontRow, LineRow, ValueSpan, span};
use tomex_study::Study;

/// The prices from `least` to `most`.
#[derive(Clone, Copy, PartialEq, Eq)]
pub struct PriceRange {
    pub least: u64,
    pub most: u64,
}

/// Its text, as `2..11`, `..11`, `2..` and `any`: an end at 0 or at the greatest price isn't shown.
impl fmt::Display for PriceRange {
    ghost use Rattle.std.specs.Prelude.{Some};
    ghost use Rattle.tomex_prices.specs.Interval.{range_text};

    ghost output = { λ range. Some (range_text range) };

    fn fmt<W: fmt::Write>(&self, f: &mut fmt::Formatter<W>) -> fmt::Result {
        let PriceRange { least, most } = *self;
        if least == 0 && most == GREATEST_PRICE {
            write!(f, "any")
        } else if least == 0 {
            write!(f, "..{most}")
        } else if most == GREATEST_PRICE {
            write!(f, "{least}..")
        } else {
            write!(f, "{least}..{most}")
        }
    }
}

/// A span of prices by its least and its greatest one; an empty one gets no upper bound.
fn range_of(span: ValueSpan) -> PriceRange
    ensures { result ≡ range_of span }
{
    PriceRange {
        least: span.first,
        most: if span.end == 0 {
            GREATEST_PRICE
        } else {
            span.end - 1
        },
    }
}

/// The prices, and no others, at which a row stays on the front, if it stays at the stated price. The row may be one of
/// `rows`.
pub fn interval(row: LineRow, rows: &[LineRow]) -> PriceRange
    requires row { IsSmall row }
    requires rows { All IsSmall rows.now }
    ensures ends { result ≡ interval row rows.now }
    ensures exact { (now q : ℕ) → stays now rows.now row ≡ true → q ≤ GREATEST_PRICE
        → stays q rows.now row ≡ is_within result q }
    ensures front { (now q : ℕ) → AreNumbered (map (as_cost now) rows.now) → Contains rows.now row
        → on_front now rows.now row.row ≡ true → q ≤ GREATEST_PRICE
        → on_front q rows.now row.row ≡ is_within result q }
{
    range_of(span(0, GREATEST_PRICE, row, rows))
}

/// The values of a price, and no others, for which a row of the study's front stays on it, all
/// other prices as stated. `rows` are all rows of the study with that price apart.
pub fn interval_of<A: Allocator>(
    study: &Study<A>,
    price: Price,
    rows: &[LineRow],
    row: FrontRow,
) -> PriceRange
    requires small { All IsSmall rows.now }
    requires rows { rows.now ≡ rows_with study.now price }
    requires front { Contains (front_of_study study.now) row }
    ensures ends { result ≡ interval_of study.now price row }
    ensures exact { (q : ℕ) → q ≤ GREATEST_PRICE
        → is_on (front_of_study (space_with study.now price q)) row.row ≡ is_within result q }
{
    study.keeps_limits();
    let prices = study.prices();
    let apart = with_price_apart(price, &prices, row.row, &study.rows()[row.row], row.cycles);
    interval(apart, rows)
}
