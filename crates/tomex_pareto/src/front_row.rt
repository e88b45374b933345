//! Rows with their costs and cycles.

/// A row of the front.
#[derive(Clone, Copy, PartialEq, Eq)]
pub struct FrontRow {
    /// Its number, from 0.
    pub row: usize,
    pub cost: u64,
    pub cycles: u64,
}
