//! What the table of a run's loops has of each.

use crate::charges::Charge;
use tomex_loop_sums::{Around, Extent};
use tomex_loops::Counts;
use tomex_symbols::Symbol;

/// What a loop of a run takes on a configuration.
#[derive(Clone, Copy, Drop)]
pub struct LoopSums {
    /// The address of its head.
    pub head: u32,
    /// The least and the greatest address of the steps in its visits, those of calls not counted.
    pub extent: Option<Extent>,
    /// The function of its head.
    pub function: Option<Symbol>,
    /// The loop around its visits, by the address of its head.
    pub around: Around,
    /// How many visits there are.
    pub entered: u64,
    /// How many steps at its head begin an iteration.
    pub iterations: u64,
    /// How many steps are in a visit.
    pub steps: u64,
    /// The cycles of these steps.
    pub cycles: u64,
    /// The cycles of the steps whose innermost visit is of this loop.
    pub own: u64,
    /// Those of them that no machine saves that is no wider and no faster in any unit.
    pub floor: u64,
    /// What is counted of its rounds; `None` if there are none.
    pub counts: Option<Counts>,
}

/// A loop of a run on a configuration.
#[derive(Clone, Copy, Drop)]
pub struct LoopRow<'a> {
    pub sums: LoopSums,
    /// The cycles that the rounds of its longest visit repeat, if they repeat any.
    pub pattern: Option<&'a [u64]>,
    /// The cycles of the critical path for each reason, of links whose steps have this innermost loop, the most first.
    pub path: &'a [Charge],
}

/// What steps outside of all loops take, or all steps.
#[derive(Clone, Copy, Drop)]
pub struct RestSums {
    /// How many there are.
    pub steps: u64,
    /// Their cycles.
    pub cycles: u64,
    /// Those of them that no machine saves that is no wider and no faster in any unit.
    pub floor: u64,
}

/// The steps outside of all loops, or all steps.
#[derive(Clone, Copy, Drop)]
pub struct Rest<'a> {
    pub sums: RestSums,
    /// The cycles of the critical path for each reason, the most first.
    pub path: &'a [Charge],
}
