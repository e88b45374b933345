//! The times of a step.

use tomex_rvexec::Step;

/// The cycles of one step, counted from 1, and its reservation station.
#[derive(Clone, Copy, PartialEq, Eq)]
pub struct Times {
    pub issue: u64,
    /// The cycle in which a load or store computes its address.
    pub address: Option<u64>,
    pub start: u64,
    /// The last cycle in the unit.
    pub finish: u64,
    /// The cycle in which the result is on a common data bus; without a destination, the finish.
    pub end: u64,
    /// The number of the station in the step's pool, from 0. FENCE, ECALL and EBREAK have none.
    pub station: Option<u8>,
}

/// A step of a run with its times.
#[derive(Clone, Copy, PartialEq, Eq)]
pub struct Done {
    pub step: Step,
    pub at: Times,
}
