//! The table of a study's prices.

ghost use Rattle.std.specs.Prelude.{◌≡◌, ◌↔◌, ◌*◌, ◌++◌, true, length, map, nat_lt, IfOk, IsErrOf, OnOk};
ghost use Rattle.tomex_study.specs.StudyFront.{front_of_study};
ghost use Rattle.tomex_prices.specs.Prices.{prices_of, relevant_prices_of};
ghost use Rattle.tomex_prices.specs.PricesTable.{columns_of, is_too_large, percent_column, price_column};
ghost use Rattle.tomex_prices.specs.PricesTable.{prices_table_of};

use crate::counts::count_relevant;
use crate::intervals::interval_of;
use crate::percents::percent;
use crate::price::Price;
use crate::priced_row::rows_with;
use crate::prices_error::PricesError;
use crate::study_prices::{prices, relevant_prices};
use std::alloc::{AllocError, Allocator, Global};
use tomex_layout::{Column, percent_text, push_row_columns, table_of};
use tomex_study::Surveyed;

/// The most intervals of one table.
const MOST_INTERVALS: u64 = 262_144;

/// The column of the percentages by which all prices may be wrong at once.
#[tactic(auto, unfolding(crate::specs::PricesTable::percent_column))]
fn percent_column<A: Allocator>(
    heap: Global,
    surveyed: &Surveyed<'_, A>,
) -> Result<Column, AllocError>
    ensures { IfOk result (λ c. c ≡ percent_column surveyed.now (front_of_study surveyed.now)) }
{
    surveyed.keeps_limits();
    let all = prices(heap, surveyed.study())?;
    let mut column = Column::new(heap, format!(in heap; "all")?);
    column.push(format!(in heap; "-")?)?;
    for row in surveyed.front() {
        let percent = percent(surveyed, all.as_slice(), *row);
        column.push(percent_text(heap, percent)?)?;
    }
    Ok(column)
}

#[tactic(auto, unfolding(crate::specs::PricesTable::price_column))]
fn price_column<A: Allocator>(
    heap: Global,
    surveyed: &Surveyed<'_, A>,
    price: Price,
) -> Result<Column, AllocError>
    ensures { IfOk result (λ c. c ≡ price_column surveyed.now (front_of_study surveyed.now) price) }
{
    let study = surveyed.study();
    let apart = rows_with(heap, surveyed, price)?;
    let stated = price.amount(&study.prices());
    let mut column = Column::new(heap, format!(in heap; "{price}")?);
    column.push(format!(in heap; "{stated}")?)?;
    for row in surveyed.front() {
        let range = interval_of(study, price, apart.as_slice(), *row);
        column.push(format!(in heap; "{range}")?)?;
    }
    Ok(column)
}

/// Adds a column for each of these prices.
fn push_prices<A: Allocator>(
    columns: &mut Vec<Column>,
    heap: Global,
    surveyed: &Surveyed<'_, A>,
    relevant: &[Price],
) -> Result<(), AllocError>
    ensures { OnOk result (columns.new.items
        ≡ columns.old.items ++ map (price_column surveyed.now (front_of_study surveyed.now)) relevant.now) }
{
    for price in relevant {
        columns.push(price_column(heap, surveyed, *price)?)?;
    }
    Ok(())
}

fn push_columns<A: Allocator>(
    columns: &mut Vec<Column>,
    heap: Global,
    surveyed: &Surveyed<'_, A>,
) -> Result<(), AllocError>
    ensures { OnOk result (columns.new.items
        ≡ columns.old.items ++ columns_of surveyed.now (front_of_study surveyed.now)) }
{
    push_row_columns(columns, heap, surveyed.front())?;
    columns.push(percent_column(heap, surveyed)?)?;
    let relevant = relevant_prices(heap, surveyed.study())?;
    push_prices(columns, heap, surveyed, relevant.as_slice())
}

/// True if there are too many intervals for a table. Allocates nothing.
#[tactic(auto, unfolding(crate::specs::PricesTable::is_too_large))]
pub(crate) fn is_too_large<A: Allocator>(surveyed: &Surveyed<'_, A>) -> bool
    ensures { result ≡ is_too_large surveyed.now }
{
    let intervals = surveyed.front().len() as u128 * count_relevant(surveyed.study()) as u128;
    intervals > u128::from(MOST_INTERVALS)
}

/// The table of a study's prices: a line of names, a line of the stated prices, and then a line for
/// each row of the front, with its number, cost and cycles, the percentage by which all prices may
/// be wrong at once, and, for each price that rows pay differently often, the values for which the
/// row stays.
///
/// Everything except the text is allocated in `heap`.
pub fn prices_table<A: Allocator>(
    alloc: A,
    heap: Global,
    surveyed: &Surveyed<'_, A>,
) -> Result<Vec<u8, A>, PricesError>
    ensures text { IfOk result (λ text. text.items ≡ prices_table_of surveyed.now) }
    ensures large { IsErrOf result PricesError.TooLarge ↔ (is_too_large surveyed.now ≡ true) }
{
    if is_too_large(surveyed) {
        return Err(PricesError::TooLarge);
    }
    let mut columns = Vec::new(heap);
    push_columns(&mut columns, heap, surveyed)?;
    Ok(table_of(alloc, surveyed.front().len() + 1, columns.as_slice())?)
}
