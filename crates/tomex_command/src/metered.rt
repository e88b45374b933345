//! A gate that reports the progress of an exploration to a meter.

ghost use Rattle.std.specs.Prelude.{◌≡◌};

use std::sync::atomic::{AtomicU64, Ordering};
use tomex_streams::{Counted, Meter, Progress};
use tomex_sweep::Gate;

/// A count of the runs that have begun. As many configurations as there are workers may have begun and not be over yet.
#[derive(Drop)]
pub struct Metered<'a, M: Meter> {
    meter: &'a M,
    workers: u64,
    rows: AtomicU64,
    begun: AtomicU64,
}

impl<'a, M: Meter> Metered<'a, M> {
    /// The gate before any run has begun.
    pub fn new(meter: &'a M, workers: u64) -> Metered<'a, M>
        ensures meter { result.meter.now ≡ meter.now }
        ensures workers { result.workers ≡ workers }
    {
        Metered {
            meter,
            workers,
            rows: AtomicU64::new(0),
            begun: AtomicU64::new(0),
        }
    }
}

impl<'a, M: Meter> Gate for Metered<'a, M> {
    fn begins(&self, rows: usize) {
        self.rows.store(rows as u64, Ordering::SeqCst);
    }

    fn before(&self, _worker: usize, _row: usize) {
        let begun = self.begun.fetch_add(1, Ordering::SeqCst).saturating_add(1);
        let over = begun.saturating_sub(self.workers);
        self.meter.show(Progress {
            done: over,
            of: self.rows.load(Ordering::SeqCst),
            counted: Counted::Configurations,
        });
    }
}
