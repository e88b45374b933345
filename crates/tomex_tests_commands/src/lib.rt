//! Tests of the program beside its golden cases: refused memory, workers and progress, outputs that fail on their
//! way, names with control characters, and the greatest inputs. And whole runs of the program over files in memory,
//! which the golden cases share: their outcomes.
#![tactic(auto)]

#[cfg(test)]
mod ends;
#[cfg(test)]
mod files;
#[cfg(test)]
mod floors_of_pages;
#[cfg(test)]
mod granting;
#[cfg(test)]
mod greatest;
#[cfg(test)]
mod hints;
#[cfg(test)]
mod large;
#[cfg(test)]
mod machines;
#[cfg(test)]
mod memory;
mod outcome;
#[cfg(test)]
mod output;
#[cfg(test)]
mod watched;
#[cfg(test)]
mod workers;

#[cfg(test)]
use granting::{each_is_granted, granted};
pub use outcome::{Outcome, outcome_of, words_of};
