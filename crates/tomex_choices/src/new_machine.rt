//! New machines of a list.

/// A machine that a study lacks: a row's with another choice in one list.
#[derive(Clone, Copy, Drop, PartialEq, Eq)]
pub struct NewMachine {
    /// How many of the list's part it has.
    pub number: u8,
    /// The latency of its units, in cycles, in a list of options; 0 in other lists.
    pub latency: u8,
    pub cost: u64,
    /// The weighted cycles of all programs.
    pub cycles: u64,
}
