//! The workers on a study's rows.

/// A number of workers, and a gate that hears of each of their rows.
#[derive(Drop)]
pub struct Crew<'g, G> {
    pub workers: usize,
    pub gate: &'g G,
}
