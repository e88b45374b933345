//! The data of a cycle's view: the steps of a run with their times and waits, what stations and registers show after
//! the cycle, and what takes the results that are sent in it.
//! Tests: tomex_cases.
#![tactic(auto)]

mod entries;
mod snapshot;
mod takers;
mod view;

pub use entries::{Entry, Name, Span, entries_of};
pub use snapshot::{Snapshot, Snapshots};
pub use takers::{push_takers, same_name};
pub use view::View;
