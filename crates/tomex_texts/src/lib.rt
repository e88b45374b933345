//! The texts of reports: the ends of programs on a configuration, the columns and fields of the
//! front report, the times report of a program, the text of a machine's tables, and all rows of a study as CSV.
//! Tests: tomex_tests_sweeps.
#![tactic(auto)]

mod end_texts;
mod ends;
mod flags;
mod front_fields;
mod front_header;
mod laws;
mod places;
mod row_ends;
mod row_numbers;
mod rows_header;
mod rows_numbers;
mod rows_text;
mod tables;
mod times;

pub use ends::ProgramEnd;
pub use front_fields::fill_record;
pub use front_header::{columns, push_row_columns};
pub use laws::{flagged_rows_are_the_hull, limit_changes_no_end};
pub use row_ends::RowEnds;
pub use rows_text::rows_report;
pub use tables::tables_text;
pub use times::times_report;
