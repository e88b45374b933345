//! A follower that reports the steps of a long run to a meter.

use tomex_cut::Follower;
use tomex_streams::{Counted, Meter, Progress};

/// Passes on how many steps of a run are taken.
#[derive(Drop)]
pub struct Stepping<'a, M: Meter> {
    pub meter: &'a M,
    pub counted: Counted,
}

impl<'a, M: Meter> Follower for Stepping<'a, M> {
    fn passed(&self, steps: u64, of: u64) {
        self.meter.show(Progress {
            done: steps,
            of,
            counted: self.counted,
        });
    }
}
