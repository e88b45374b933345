//! Bounds: finished rows by which running ones are judged.

/// A finished row and its cycles.
#[derive(Clone, Copy, PartialEq, Eq)]
pub struct Bound {
    pub cycles: u64,
    pub row: usize,
}
