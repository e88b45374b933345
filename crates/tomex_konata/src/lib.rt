//! A run's steps as a log of the viewer Konata: the lines of each cycle in which something happens.
//! Tests: tomex_cases.
#![tactic(auto)]

mod entries;
mod events;
mod lines;
mod writing;

pub use writing::konata_text;
