//! What a pass knows about its deque.

use std::collections::LinkedList;

/// What a pass knows. Only contracts see it: no value of it is ever made.
pub struct Known {
    /// True if rows may still be added, which only the first pass may do, while it is the only one.
    pub filling: bool,
    /// All rows that were added.
    pub rows: LinkedList<usize>,
}
