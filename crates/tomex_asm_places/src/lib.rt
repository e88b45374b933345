//! Where a program's bytes and labels are: the first pass of the assembler.
//! Tests: tomex_tests_in_order.
#![tactic(auto)]

mod placing;
mod position;
mod sizes;

pub use placing::Placed;
pub use position::{LARGEST, Position, alignment_of, is_small, load_size};
pub use sizes::{inner, is_string};
