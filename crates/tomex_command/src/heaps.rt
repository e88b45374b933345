//! The memory that a run of the program takes.

use std::alloc::{Allocator, Global};

/// The allocators from which a run of the program takes its memory.
#[derive(Drop)]
pub struct Heaps<A: Allocator> {
    /// For everything that is made of studies and images.
    pub images: A,
    /// For the command line, and the names and texts of failures.
    pub texts: Global,
}
