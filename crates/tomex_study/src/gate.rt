//! Calls before rows are run.

/// Calls that a worker makes before each run. They can show progress; a test can hold a worker in
/// them.
pub trait Gate {
    /// Called once, before the first run, with the number of rows.
    fn begins(&self, _rows: usize) {}

    /// Called by a worker that has taken a row, before it runs it.
    fn before(&self, worker: usize, row: usize);

    /// Called after `before` by a worker of an exploration or a survey, with the number of programs
    /// that it still has to evaluate on the row. It knows the cycles of the others from other rows.
    fn runs(&self, _worker: usize, _row: usize, _programs: usize) {}
}

/// A gate that lets each run begin at once.
#[derive(Clone, Copy)]
pub struct OpenGate;

impl Gate for OpenGate {
    fn before(&self, _worker: usize, _row: usize) {}
}
