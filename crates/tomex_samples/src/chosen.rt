//! Parts that stand for a run.

/// A part of a run, by the number of its first step, the first of the run being 1: how many steps it has, for how many
/// stretches of the run it stands, and with which weight a study takes it.
#[derive(Clone, Copy, PartialEq, Eq)]
pub struct Chosen {
    pub from: u64,
    pub steps: u32,
    pub stretches: u32,
    pub weight: u32,
}
