//! What a seat knows about its board.

use crate::mark::Mark;
use std::collections::LinkedList;

/// What a seat knows. Only contracts see it: no value of it is ever made.
pub struct View {
    /// The rows that the seat has claimed and not closed.
    pub hand: LinkedList<u64>,
    /// The rows that it saw not open.
    pub seen: LinkedList<u64>,
    /// The closed marks that it saw, each with its row.
    pub marks: LinkedList<(u64, Mark)>,
    /// The words that it saw in bands, each with its band.
    pub bests: LinkedList<(u64, u64)>,
    /// Its numbers of the 32, which no other seat has.
    pub share: LinkedList<u64>,
}
