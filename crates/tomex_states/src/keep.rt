//! Keeping a state.

ghost use Rattle.std.specs.Prelude.{◌≡◌, ◌<◌, ◌^◌, ◌↔◌, IsTrue, OnErr, OnOk};
ghost use Rattle.tomex_timing.specs.Ahead.{IsSettledBy, held_by};
ghost use Rattle.tomex_states.specs.Reuse.{CanBeKept, IsCopy, ShowsTheSame};

use crate::state::State;
use std::alloc::{AllocError, Allocator};
use tomex_config::Config;
use tomex_timing::issue_from;

/// The most cycles for which a kept state knows what is taken.
const FARTHEST: u64 = 256;

impl<A: Allocator> State<A> {
    /// True if a state is worth keeping: it may come again, and it is small. A longer window or more cycles would be as
    /// right.
    pub fn can_be_kept(&self, config: &Config) -> bool
        requires settled { IsSettledBy (held_by self.now.recent) }
        requires small { self.now.recent.latest.end < 2 ^ 63 }
        ensures { IsTrue result ↔ CanBeKept config.now self.now }
    {
        let latest = &self.recent.latest;
        self.window.older < self.access_from(config)
            && latest.end <= issue_from(config, latest) + FARTHEST
    }

    /// Makes this a copy of another state, in the memory that it has, without the cycles before the last issue. Without
    /// memory for it only the table and the accesses may have changed.
    pub fn copy_from(&mut self, other: &State<A>) -> Result<(), AllocError>
        requires { IsSettledBy (held_by other.now.recent) }
        ensures copied { OnOk result (IsCopy other.now self.new) }
        ensures shows { OnOk result (ShowsTheSame other.now self.new) }
        ensures latest { OnErr result (self.new.recent.latest ≡ self.old.recent.latest) }
        ensures stations { OnErr result (self.new.recent.stations ≡ self.old.recent.stations) }
        ensures window { OnErr result (self.new.window ≡ self.old.window) }
    {
        let source = &other.recent;
        self.recent.accesses.clear();
        self.recent.accesses.extend_from_slice(&source.accesses)?;
        self.recent
            .table
            .copy_from(&source.table, source.latest.issue)?;
        self.recent.latest = source.latest;
        self.recent.stations = source.stations;
        self.window = other.window;
        Ok(())
    }
}
