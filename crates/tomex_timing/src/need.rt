//! What a run needs of a part, and what a step waits for.

/// The most that a run takes of a part at once, and the cycles that its steps wait for it: two that wait in one cycle
/// count twice.
#[derive(Clone, Copy, PartialEq, Eq)]
pub struct Need {
    pub peak: u64,
    pub stalls: u64,
}

/// The cycles that a step waits, each charged to the first thing that is missing in it.
#[derive(Clone, Copy, PartialEq, Eq)]
pub struct Waits {
    /// To issue: for an older branch's finish, for the width, for a station of its pool.
    pub branch: u64,
    pub width: u64,
    pub station: u64,
    /// To start: for an operand, for its address, for an older access, for a unit of its kind.
    pub operand: u64,
    pub address: u64,
    pub memory: u64,
    pub unit: u64,
    /// To end: for a bus that takes its result.
    pub bus: u64,
}
