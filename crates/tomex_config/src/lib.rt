//! Configurations of a Tomasulo machine: their parts and settings, their costs, and the grid of all
//! configurations that the axes of a study span.
//!
//! Source of the parts: R. M. Tomasulo, "An Efficient Algorithm for Exploiting Multiple Arithmetic
//! Units", 1967, and the chapter on Tomasulo's algorithm in Hennessy and Patterson's "Computer
//! Architecture: A Quantitative Approach".
//! Tests: tomex_tests_studies, tomex_tests_sweeps.
#![tactic(auto)]

mod axis;
mod config;
mod likeness;
mod part;
mod part_prices;
mod price;
mod product;
mod setting;

pub use axis::Axes;
pub use config::{Config, UnitOption, same_option};
pub use likeness::Likeness;
pub use part::{Part, same_entry, with_count};
pub use part_prices::{cost_of_part, price_of_part};
pub use price::{Prices, cost};
pub use product::{GridError, grid};
pub use setting::Setting;
