//! A run's critical path, as people read it: why the run takes exactly its cycles, by what its steps had waited for,
//! link by link, by place in the program, and by function.
//! Tests: tomex_cases.
#![tactic(auto)]

mod by_function;
mod by_link;
mod by_place;
mod by_reason;
mod charges;
mod shares;
mod with_functions;

pub use by_function::path_by_function;
pub use by_link::path_links;
pub use by_place::path_by_pc;
pub use by_reason::{REASONS, path_report, push_name_of_reason};
pub use shares::{Share, cycles_of, is_reason, share_of};
pub use with_functions::{path_by_pc_and_function, path_links_and_functions};
