//! Rows one measure of which grows with a value.

/// A row with one measure, its cost or its cycles, as a line in a value that varies: `rest`, plus the value as often as
/// `times` says.
#[derive(Clone, Copy, PartialEq, Eq)]
pub struct LineRow {
    /// Its number, from 0.
    pub row: usize,
    /// That measure without the value.
    pub rest: u64,
    pub times: u64,
    /// Its other measure, the same at each value.
    pub other: u64,
}
