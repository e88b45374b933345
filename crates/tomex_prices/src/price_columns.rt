//! The intervals of a study's prices, price by price.

ghost use Rattle.std.specs.Prelude.{◌≡◌, ◌<◌, length, map, slice_index_or, IfOk};
ghost use Rattle.tomex_prices.specs.PricesCsv.{ranges_by};

use crate::intervals::{PriceRange, interval_of};
use crate::price::Price;
use crate::priced_row::rows_with;
use std::alloc::{AllocError, Allocator, Global};
use std::marker::Model;
use tomex_study::Surveyed;

/// Between which values of a price each row of the front stays on it, in the front's order.
#[derive(Drop)]
pub(crate) struct PriceColumn {
    pub(crate) price: Price,
    pub(crate) ranges: Vec<PriceRange>,
}

impl Model for PriceColumn {
    ghost use Rattle.tomex_prices.specs.PricesCsv.{PriceRanges};

    ghost Value = { PriceRanges };

    ghost view = { λ c. record { price = c.price; ranges = c.ranges.items } };
}

impl PriceColumn {
    /// The interval of the row at this place of the front.
    pub(crate) fn at(&self, place: usize) -> PriceRange
        requires { place < length self.now.ranges }
        ensures { result ≡ slice_index_or self.now.ranges place result }
    {
        self.ranges[place]
    }
}

/// The intervals of a price.
fn column_of<A: Allocator>(
    heap: Global,
    surveyed: &Surveyed<'_, A>,
    price: Price,
) -> Result<PriceColumn, AllocError>
    ensures { IfOk result (λ c. c ≡ ranges_by surveyed.now price) }
{
    let study = surveyed.study();
    let apart = rows_with(heap, surveyed, price)?;
    let mut ranges = Vec::new(heap);
    for row in surveyed.front() {
        ranges.push(interval_of(study, price, apart.as_slice(), *row))?;
    }
    Ok(PriceColumn { price, ranges })
}

/// The intervals of these prices.
pub(crate) fn columns_of<A: Allocator>(
    heap: Global,
    surveyed: &Surveyed<'_, A>,
    prices: &[Price],
) -> Result<Vec<PriceColumn>, AllocError>
    ensures { IfOk result (λ v. v.items ≡ map (ranges_by surveyed.now) prices.now) }
{
    let mut columns = Vec::new(heap);
    for price in prices {
        columns.push(column_of(heap, surveyed, *price)?)?;
    }
    Ok(columns)
}
