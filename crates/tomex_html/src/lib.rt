//! What HTML pages have in common: their beginning and their end, names in them, tables, and views with links from one
//! to the next.
//!
//! Source: the HTML Living Standard, in its XML syntax.
//! Tests: tomex_cases, tomex_tests_commands.
#![tactic(auto)]

mod constants;
mod heads;
mod laws;
mod links;
mod names;
mod page;
mod tables;

pub use heads::{
    push_column_head, push_column_heads, push_head_end, push_table_head, push_table_start,
};
pub use laws::{ids_are_apart, marks_are_differences, names_are_text};
pub use links::{Links, push_links};
pub use names::push_name;
pub use page::{push_page_end, push_page_start};
pub use tables::{
    cell_start, push_changed_cell, push_empty, push_number, push_numbers, push_row_start,
    push_table_end,
};
