//! A cycle of a run, and the data of its view.

ghost use Rattle.std.specs.Prelude.{◌≡◌};
ghost use Rattle.tomex_snapshots.specs.Entries.{history_of};
ghost use Rattle.tomex_snapshots.specs.Kept.{AreSnapshots};

use crate::entries::Entry;
use crate::snapshot::{Snapshots, snapshots_of};

/// A cycle, and the data of its view.
#[derive(Clone, Copy)]
pub struct View<'a> {
    pub cycle: u64,
    pub entries: &'a [Entry],
    pub snapshots: Snapshots,
    pub ghost snapshots_are: { AreSnapshots cycle (history_of entries.now) snapshots },
}

impl<'a> View<'a> {
    /// The view of a cycle in which these steps show. The work is linear in the steps.
    pub fn new(entries: &'a [Entry], cycle: u64) -> View<'a>
        ensures cycle { result.cycle ≡ cycle }
        ensures entries { result.entries.now ≡ entries.now }
    {
        View {
            cycle,
            entries,
            snapshots: snapshots_of(entries, cycle),
        }
    }
}
