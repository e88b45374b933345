//! Prices: the values of one price, all others as stated, for which a row of the front stays on it;
//! the percentage by which all may be wrong at once; and the table of both, also as CSV.
//! Tests: tomex_cases, tomex_tests_surveys.
#![tactic(auto)]

mod counts;
mod intervals;
mod laws;
mod percents;
mod price;
mod price_columns;
mod priced_row;
mod prices_error;
mod records;
mod study_prices;
mod table;

pub use intervals::{PriceRange, interval, interval_of};
pub use laws::{
    all_prices_may_be_wrong_by_the_percentage, costs_split, csv_has_the_same_ends,
    irrelevant_prices_are_any, on_front_exactly_within, on_front_of_study_exactly_within,
    on_repriced_front_exactly_within, prices_may_move_by_shares, stated_prices_are_within,
    stays_exactly_within,
};
pub use percents::percent;
pub use price::{GREATEST_PRICE, Price};
pub use priced_row::rows_with;
pub use prices_error::PricesError;
pub use records::prices_csv;
pub use study_prices::{prices, relevant_prices};
pub use table::prices_table;
