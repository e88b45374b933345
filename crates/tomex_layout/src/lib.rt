//! The elements of what is printed: CSV records and texts of them, by the crate `csv` with its defaults; aligned
//! texts, and tables of them, a line of names and lines of texts; names of lists, settings and programs, and the
//! entries of lists; numbers of hundredths, signed differences, percentages and rates.
//! Tests: tomex_cases, tomex_tests_sweeps, tomex_tests_surveys.
#![tactic(auto)]

mod aligned;
mod column;
mod csv_cells;
mod csv_fields;
mod csv_text;
mod differences;
mod digits;
mod fields;
mod headings;
mod hundredths;
mod lists;
mod names;
mod percents;
mod plain_records;
mod rates;
mod table;
mod writing;

pub use aligned::{push_aligned, push_aligned_number, push_left_aligned};
pub use column::Column;
pub use csv_fields::Fields;
pub use csv_text::CsvText;
pub use differences::{percent, push_percent, push_signed, signed_difference};
pub use digits::push_digits;
pub use fields::{push_decimal, push_instruction, push_names};
pub use headings::push_row_columns;
pub use hundredths::push_hundredths;
pub use lists::{
    entry_text, name_of_list, name_of_setting, push_entry, push_name_of_list, push_name_of_setting,
};
pub use names::{push_shown, shown_name};
pub use percents::percent_text;
pub use plain_records::{push_next_number, push_numbers};
pub use rates::{push_rate, rate_text};
pub use table::table_of;
pub use writing::{into_text, put_record, text_of_record};
