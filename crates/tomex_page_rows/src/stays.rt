//! The prices with which a row stays on the front.

ghost use Rattle.std.specs.Prelude.{◌≡◌, ◌<◌, ◌++◌, length, map, slice_index_or, All, IfOk, OnOk};
ghost use Rattle.tomex_layout.specs.Growth.{Appends};
ghost use Rattle.tomex_page_tables.specs.Shown.{no_row};
ghost use Rattle.std.specs.List.{Contains, flat_map};
ghost use Rattle.tomex_page_rows.specs.Stays.{AreFound, off_text, prices_table, range_row, range_row_at, ranges_of};
ghost use Rattle.tomex_page_rows.specs.Stays.{up_to, whatever};
ghost use Rattle.tomex_html.specs.Html.{td};
ghost use Rattle.tomex_html.specs.Tables.{number_cell, row_start};
ghost use Rattle.tomex_prices.specs.Interval.{range_text};
ghost use Rattle.tomex_prices.specs.Price.{name_of_price};
ghost use Rattle.tomex_prices.specs.Studies.{interval_of};
ghost use Rattle.tomex_study.specs.StudyFront.{front_of_study};

use std::alloc::{AllocError, Allocator, Global};
use std::fmt::Write;
use std::marker::Model;
use tomex_html::{push_number, push_table_end, push_table_head};
use tomex_page_tables::{first_lines, push_more};
use tomex_pareto::FrontRow;
use tomex_prices::{Price, PriceRange, interval_of, percent, prices, relevant_prices, rows_with};
use tomex_study::Surveyed;

/// A price, its stated value, and the range in which each row that is shown stays on the front.
#[derive(Drop)]
pub struct Ranges {
    price: Price,
    stated: u64,
    ranges: Vec<PriceRange>,
}

impl Model for Ranges {
    ghost use Rattle.tomex_page_rows.specs.Stays.{PriceRanges};

    ghost Value = { PriceRanges };

    ghost view = { λ r. record { price = r.price; stated = r.stated; ranges = r.ranges.items } };
}

/// The prices of a study, with results computed only once for all rows that are shown.
#[derive(Drop)]
pub struct PriceBook {
    /// All prices.
    all: Vec<Price>,
    /// The number of prices that some rows pay more often than others.
    relevant: usize,
    /// The results for the first of these.
    ranges: Vec<Ranges>,
}

impl Model for PriceBook {
    ghost use Rattle.tomex_page_rows.specs.Stays.{PricesFound};

    ghost Value = { PricesFound };

    ghost view = { λ b. record { prices = b.all.items; relevant = b.relevant; ranges = b.ranges.items } };
}

/// The range of a price in which each row that is shown stays on the front.
fn ranges_of<A: Allocator>(
    heap: Global,
    surveyed: &Surveyed<'_, A>,
    shown: &[FrontRow],
    price: Price,
) -> Result<Ranges, AllocError>
    requires { All (Contains (front_of_study surveyed.now)) shown.now }
    ensures { IfOk result (λ r. r ≡ ranges_of surveyed.now shown.now price) }
{
    let study = surveyed.study();
    let priced = rows_with(heap, surveyed, price)?;
    let mut ranges = Vec::with_capacity(heap, shown.len())?;
    for row in shown {
        ranges.push(interval_of(study, price, priced.as_slice(), *row))?;
    }
    Ok(Ranges {
        price,
        stated: price.amount(&study.prices()),
        ranges,
    })
}

/// The same for several prices.
fn all_ranges<A: Allocator>(
    heap: Global,
    surveyed: &Surveyed<'_, A>,
    shown: &[FrontRow],
    prices: &[Price],
) -> Result<Vec<Ranges>, AllocError>
    requires { All (Contains (front_of_study surveyed.now)) shown.now }
    ensures { IfOk result (λ v. v.items ≡ map (ranges_of surveyed.now shown.now) prices.now) }
{
    let mut all = Vec::with_capacity(heap, prices.len())?;
    for price in prices {
        all.push(ranges_of(heap, surveyed, shown, *price)?)?;
    }
    Ok(all)
}

impl PriceBook {
    /// The prices of a study. `shown` are the rows of its front that are shown.
    #[tactic(auto, unfolding(crate::specs::Stays::shown_prices))]
    pub fn new<A: Allocator>(
        heap: Global,
        surveyed: &Surveyed<'_, A>,
        shown: &[FrontRow],
    ) -> Result<PriceBook, AllocError>
        requires { All (Contains (front_of_study surveyed.now)) shown.now }
        ensures { IfOk result
            (λ b. AreFound surveyed.now shown.now b) }
    {
        let all = prices(heap, surveyed.study())?;
        let relevant = relevant_prices(heap, surveyed.study())?;
        let some = first_lines(relevant.as_slice());
        let ranges = all_ranges(heap, surveyed, shown, some)?;
        Ok(PriceBook {
            all,
            relevant: relevant.len(),
            ranges,
        })
    }

    fn all(&self) -> &[Price]
        ensures value { result.now ≡ self.now.prices }
    {
        self.all.as_slice()
    }

    /// The number of prices that some rows pay more often than others.
    fn relevant(&self) -> usize
        ensures value { result ≡ self.now.relevant }
    {
        self.relevant
    }

    /// The results for the first of these.
    fn ranges(&self) -> &[Ranges]
        ensures value { result.now ≡ self.now.ranges }
    {
        self.ranges.as_slice()
    }
}

/// Adds the start of a row for a price.
#[tactic(auto, unfolding(tomex_html::specs::Tables::row_start))]
fn push_price_start<A: Allocator>(text: &mut String<A>, price: Price) -> Result<(), AllocError>
    ensures { OnOk result (Appends (row_start (name_of_price price)) text.old text.new) }
{
    write!(text, "<tr><th scope=\"row\">{price}</th>")
}

/// Adds a cell with a range of prices.
fn push_range_cell<A: Allocator>(text: &mut String<A>, range: PriceRange) -> Result<(), AllocError>
    ensures { OnOk result (Appends (td (range_text range)) text.old text.new) }
{
    write!(text, "<td>{range}</td>")
}

/// Adds a price's stated value, and a range.
fn push_range_cells<A: Allocator>(
    text: &mut String<A>,
    now: u64,
    range: PriceRange,
) -> Result<(), AllocError>
    ensures { OnOk result (Appends (number_cell now ++ td (range_text range)) text.old text.new) }
{
    push_number(text, now)?;
    push_range_cell(text, range)
}

#[tactic(auto, unfolding(crate::specs::Stays::range_row, tomex_html::specs::Tables::table_row))]
fn push_range_row<A: Allocator>(
    text: &mut String<A>,
    price: Price,
    now: u64,
    range: PriceRange,
) -> Result<(), AllocError>
    ensures { OnOk result (Appends (range_row price now range) text.old text.new) }
{
    push_price_start(text, price)?;
    push_range_cells(text, now, range)?;
    text.push_str("</tr>\n")
}

/// Adds the line of a price for the row that is shown at a place.
#[tactic(auto, unfolding(crate::specs::Stays::range_row_at))]
fn push_range_row_at<A: Allocator>(
    text: &mut String<A>,
    place: usize,
    ranges: &Ranges,
) -> Result<(), AllocError>
    requires { place < length ranges.now.ranges }
    ensures { OnOk result (Appends (range_row_at place ranges.now) text.old text.new) }
{
    push_range_row(text, ranges.price, ranges.stated, ranges.ranges[place])
}

fn push_range_rows<A: Allocator>(
    text: &mut String<A>,
    place: usize,
    all: &[Ranges],
) -> Result<(), AllocError>
    requires { All (λ r. place < length r.ranges) all.now }
    ensures { OnOk result (Appends (flat_map (range_row_at place) all.now) text.old text.new) }
{
    for ranges in all {
        push_range_row_at(text, place, ranges)?;
    }
    Ok(())
}

/// Adds by how many percent all prices may be off.
#[tactic(auto, unfolding(crate::specs::Stays::up_to))]
fn push_up_to<A: Allocator>(text: &mut String<A>, percent: u64) -> Result<(), AllocError>
    ensures { OnOk result (Appends (up_to percent) text.old text.new) }
{
    write!(
        text,
        "<p>It stays if every price is off by up to {percent}%.</p></div>\n"
    )
}

/// Adds that prices don't matter.
#[tactic(auto, unfolding(crate::specs::Stays::whatever))]
fn push_whatever<A: Allocator>(text: &mut String<A>) -> Result<(), AllocError>
    ensures { OnOk result (Appends whatever text.old text.new) }
{
    text.push_str("<p>It stays whatever the prices are.</p></div>\n")
}

/// Adds by how many percent all prices may be off at once.
#[tactic(auto, unfolding(crate::specs::Stays::off_text))]
fn push_off<A: Allocator>(text: &mut String<A>, percent: u64) -> Result<(), AllocError>
    ensures { OnOk result (Appends (off_text percent) text.old text.new) }
{
    if percent < 100 {
        push_up_to(text, percent)
    } else {
        push_whatever(text)
    }
}

/// Adds the table of the prices with which the row that is shown at a place stays on the front.
///
/// `book` has the study's prices.
#[tactic(auto, unfolding(crate::specs::Stays::prices_table))]
pub fn push_prices_table<A: Allocator, B: Allocator>(
    text: &mut String<A>,
    surveyed: &Surveyed<'_, B>,
    book: &PriceBook,
    shown: &[FrontRow],
    place: usize,
) -> Result<(), AllocError>
    requires book { AreFound surveyed.now shown.now book.now }
    requires place { place < length shown.now }
    requires within { All (λ r. r.row < length surveyed.now.rows) shown.now }
    ensures { OnOk result (
        Appends (prices_table surveyed.now (slice_index_or shown.now place no_row)) text.old text.new) }
{
    let names = ["Price", "Now", "Stays"];
    text.push_str("<div>")?;
    push_table_head(text, " class=\"a\"", "Prices with which it stays", &names)?;
    push_range_rows(text, place, book.ranges())?;
    push_table_end(text)?;
    push_more(text, "prices", book.relevant())?;
    push_off(text, percent(surveyed, book.all(), shown[place]))
}
