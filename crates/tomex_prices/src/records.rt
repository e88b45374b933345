//! A study's prices as CSV.

ghost use Rattle.std.specs.Prelude.{◌≡◌, ◌↔◌, ◌++◌, ◌∷◌, [], true, map, slice_get, All, Some, IfOk, IsErrOf, OnOk};
ghost use Rattle.std.specs.List.{flat_map};
ghost use Rattle.tomex_layout.specs.Csv.{record_text};
ghost use Rattle.tomex_study.specs.StudyFront.{front_of_study};
ghost use Rattle.tomex_prices.specs.Percent.{percent_of};
ghost use Rattle.tomex_prices.specs.Prices.{prices_of, relevant_prices_of};
ghost use Rattle.tomex_prices.specs.PricesCsv.{high_field, low_field, names, price_fields, price_record, prices_csv_of};
ghost use Rattle.tomex_prices.specs.PricesCsv.{ranges_by, row_fields, row_records, IsOfPrice};
ghost use Rattle.tomex_prices.specs.PricesTable.{is_too_large};
ghost use Rattle.tomex_prices.specs.Studies.{interval_of};

use crate::intervals::PriceRange;
use crate::percents::percent;
use crate::price::{GREATEST_PRICE, Price};
use crate::price_columns::{PriceColumn, columns_of};
use crate::prices_error::PricesError;
use crate::study_prices::{prices, relevant_prices};
use crate::table::is_too_large;
use std::alloc::{AllocError, Allocator, Global};
use tomex_layout::{CsvText, Fields};
use tomex_pareto::FrontRow;
use tomex_study::Surveyed;

/// Adds the lower end of an interval, if something bounds it from below.
fn push_low(fields: &mut Fields, range: PriceRange) -> Result<(), AllocError>
    ensures { OnOk result (fields.new ≡ fields.old ++ low_field range ∷ []) }
{
    if range.least == 0 {
        fields.push("")
    } else {
        fields.push_decimal(range.least)
    }
}

/// Adds its upper end, if something bounds it from above.
fn push_high(fields: &mut Fields, range: PriceRange) -> Result<(), AllocError>
    ensures { OnOk result (fields.new ≡ fields.old ++ high_field range ∷ []) }
{
    if range.most == GREATEST_PRICE {
        fields.push("")
    } else {
        fields.push_decimal(range.most)
    }
}

/// Adds what the records of a row begin with.
fn push_row(fields: &mut Fields, row: FrontRow, percent: u64) -> Result<(), AllocError>
    ensures { OnOk result (fields.new ≡ fields.old ++ row_fields row percent) }
{
    fields.push_decimal(row.row as u64)?;
    fields.push_decimal(row.cost)?;
    fields.push_decimal(row.cycles)?;
    fields.push_percent(percent)
}

/// Adds a price, as stated, and the ends of an interval of it.
fn push_price<A: Allocator>(
    fields: &mut Fields,
    heap: Global,
    surveyed: &Surveyed<'_, A>,
    price: Price,
    range: PriceRange,
) -> Result<(), AllocError>
    ensures { OnOk result (fields.new ≡ fields.old ++ price_fields surveyed.now price range) }
{
    let stated = price.amount(&surveyed.study().prices());
    fields.push(format!(in heap; "{price}")?.as_str())?;
    fields.push_decimal(stated)?;
    push_low(fields, range)?;
    push_high(fields, range)
}

/// The interval of a price for the row at this place of the front.
fn range_at<A: Allocator>(
    surveyed: &Surveyed<'_, A>,
    column: &PriceColumn,
    place: usize,
    row: FrontRow,
) -> PriceRange
    requires column { IsOfPrice surveyed.now column.now }
    requires row { slice_get (front_of_study surveyed.now) place ≡ Some row }
    ensures { result ≡ interval_of surveyed.now column.now.price row }
{
    column.at(place)
}

/// The text with the record of a price and the row at this place of the front. `percent` is the row's.
#[tactic(auto, unfolding(crate::specs::PricesCsv::price_record))]
fn with_price<A: Allocator>(
    text: CsvText<A>,
    heap: Global,
    surveyed: &Surveyed<'_, A>,
    column: &PriceColumn,
    place: usize,
    row: FrontRow,
    percent: u64,
) -> Result<CsvText<A>, AllocError>
    requires column { IsOfPrice surveyed.now column.now }
    requires row { slice_get (front_of_study surveyed.now) place ≡ Some row }
    requires percent { percent ≡ percent_of surveyed.now row }
    ensures { IfOk result (λ made. made ≡ text ++ price_record surveyed.now row column.now.price) }
{
    let range = range_at(surveyed, column, place, row);
    let mut fields = Fields::new(heap);
    push_row(&mut fields, row, percent)?;
    push_price(&mut fields, heap, surveyed, column.price, range)?;
    text.with(&fields)
}

/// The text with the records of a row, at this place of the front.
fn with_row<A: Allocator>(
    text: CsvText<A>,
    heap: Global,
    surveyed: &Surveyed<'_, A>,
    columns: &[PriceColumn],
    place: usize,
    row: FrontRow,
    percent: u64,
) -> Result<CsvText<A>, AllocError>
    requires columns { columns.now ≡ map (ranges_by surveyed.now) (relevant_prices_of surveyed.now) }
    requires of_price { All (IsOfPrice surveyed.now) columns.now }
    requires row { slice_get (front_of_study surveyed.now) place ≡ Some row }
    requires percent { percent ≡ percent_of surveyed.now row }
    ensures { IfOk result (λ made. made ≡ text ++ row_records surveyed.now row) }
{
    let mut made = text;
    for column in columns {
        made = with_price(made, heap, surveyed, column, place, row, percent)?;
    }
    Ok(made)
}

/// The text with the records of the front's rows. `all` are the study's prices.
fn with_front<A: Allocator>(
    text: CsvText<A>,
    heap: Global,
    surveyed: &Surveyed<'_, A>,
    columns: &[PriceColumn],
    all: &[Price],
) -> Result<CsvText<A>, AllocError>
    requires columns { columns.now ≡ map (ranges_by surveyed.now) (relevant_prices_of surveyed.now) }
    requires of_price { All (IsOfPrice surveyed.now) columns.now }
    requires all { all.now ≡ prices_of surveyed.now }
    ensures { IfOk result (λ made. made ≡ text ++ flat_map (row_records surveyed.now) (front_of_study surveyed.now)) }
{
    let mut made = text;
    for (place, row) in surveyed.front().iter().enumerate() {
        let percent = percent(surveyed, all, *row);
        made = with_row(made, heap, surveyed, columns, place, *row, percent)?;
    }
    Ok(made)
}

/// The header.
fn header<A: Allocator>(alloc: A, heap: Global) -> Result<CsvText<A>, AllocError>
    ensures { IfOk result (λ made. made ≡ record_text names) }
{
    let names = [
        "row", "cost", "cycles", "all", "price", "now", "low", "high",
    ];
    CsvText::with_header(alloc, heap, names.as_slice())
}

/// The records of all prices, after the header.
fn all_records<A: Allocator>(
    alloc: A,
    heap: Global,
    surveyed: &Surveyed<'_, A>,
) -> Result<Vec<u8, A>, AllocError>
    ensures { IfOk result (λ text. text.items ≡ prices_csv_of surveyed.now) }
{
    let all = prices(heap, surveyed.study())?;
    let relevant = relevant_prices(heap, surveyed.study())?;
    let made = columns_of(heap, surveyed, relevant.as_slice())?;
    let columns = made.as_slice();
    let text = header(alloc, heap)?;
    with_front(text, heap, surveyed, columns, all.as_slice())?.into_bytes()
}

/// The prices of the table as CSV: a header, and for each row of the front a record for each price that the table has,
/// with the values for which the row stays, from `low` to `high`. An end at the limit of prices is empty.
///
/// Everything except the text is allocated in `heap`.
pub fn prices_csv<A: Allocator>(
    alloc: A,
    heap: Global,
    surveyed: &Surveyed<'_, A>,
) -> Result<Vec<u8, A>, PricesError>
    ensures text { IfOk result (λ text. text.items ≡ prices_csv_of surveyed.now) }
    ensures large { IsErrOf result PricesError.TooLarge ↔ (is_too_large surveyed.now ≡ true) }
{
    if is_too_large(surveyed) {
        return Err(PricesError::TooLarge);
    }
    Ok(all_records(alloc, heap, surveyed)?)
}
