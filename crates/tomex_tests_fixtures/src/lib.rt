//! Fixtures that tests of several crates share: programs, machines, studies and their results,
//! images, a sink and files in memory, and calls that run out of memory. For these an
//! allocator grants a given number of blocks and refuses all later ones, so that a test can refuse each
//! growth of a call in turn and see that the call reports it.
#![tactic(auto)]

mod budget;
mod explained;
mod images;
pub mod in_memory;
pub mod machines;
pub mod programs;
mod refusing;
pub mod runs;
pub mod studies;
mod tries;

pub use budget::Budget;
pub use explained::{ALL_REFUSALS, OVERLAP};
pub use images::image_of;
pub use refusing::Refusing;
pub use tries::{Attempt, Heap, Try, ample, heap_of, refusals};
