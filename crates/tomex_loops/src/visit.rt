//! Visits of loops, and their rounds.

/// A visit of a loop.
#[derive(Clone, Copy, PartialEq, Eq)]
pub struct Visit {
    /// The head of its loop: the number of the first step there.
    pub head: u32,
    /// The number of its loop.
    pub number: u32,
    /// The number of the innermost visit around it as it begins, in the same call or in one further out.
    pub around: Option<u32>,
    /// The same in its own call only.
    pub within: Option<u32>,
    /// The step with which it begins.
    pub first: u32,
}

/// A visit that isn't over.
#[derive(Clone, Copy, PartialEq, Eq)]
pub struct Open {
    /// Its number.
    pub visit: u32,
    /// The head of its loop.
    pub head: u32,
    /// The step with which its latest iteration began.
    pub latest: u32,
}

/// A round: an iteration of a visit that another one follows in the same visit.
#[derive(Clone, Copy, PartialEq, Eq)]
pub struct Round {
    /// The number of the visit.
    pub visit: u32,
    /// The step with which it begins.
    pub from: u32,
    /// The step with which the next iteration begins.
    pub to: u32,
}
