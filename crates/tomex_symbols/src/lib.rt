//! The symbols of an ELF file, and which of them has an address: the function of a pc.
//! Tests: tomex_tests_in_order.
#![tactic(auto)]

mod functions;
mod naming;
mod order;
mod reading;
mod sections;
mod sweep;
mod symbol;

pub use functions::functions_at;
pub use naming::name_of;
pub use reading::{has_symbols, symbols};
pub use sections::{Section, Tables, find_tables};
pub use symbol::{Binding, Kind, Symbol};
