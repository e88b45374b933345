//! Marks of rows.

/// The state of a row on a board.
#[derive(Clone, Copy, PartialEq, Eq)]
pub enum Mark {
    /// No seat has claimed it.
    Open,
    /// A seat has it in hand, or had it when the seat was discarded.
    Taken,
    /// It was run to its end, in this number of cycles.
    Finished(u64),
    /// It was given up: the row of this number is finished, costs no more and is strictly faster.
    Dropped(usize),
}
