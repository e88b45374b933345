//! The activity of a cycle, which decides whether the cycles after it can be skipped.

ghost use Rattle.std.specs.Prelude.{◌≡◌, ◌≢◌, ◌⊎◌, true, false, if◌then◌else◌};
ghost use Rattle.tomex_cycle.specs.Starts.{NoneWaits};

use tomex_tags::Pools;

/// The activity of the cycle that is being made, before anything ends in it.
#[derive(Clone, Copy)]
pub(crate) enum Activity {
    Nothing,
    /// Operations have started, nothing more.
    Starts,
    /// An address is computed, or an instruction has issued.
    More,
}

impl Activity {
    /// Raises the activity to `activity` if `happens`.
    #[inline(always)]
    pub(crate) fn raise_to(&mut self, activity: Activity, happens: bool)
        ensures { self.new ≡ (if happens then activity else self.old) }
    {
        if happens {
            *self = activity;
        }
    }
}

/// True if a cycle is settled: in it no address was computed and nothing issued, finished or ended, and if operations
/// started, none is left that waits only for a unit and older accesses.
#[inline(always)]
pub(crate) fn is_settled_after(activity: Activity, ended: bool, pools: &Pools) -> bool
    ensures settled { result ≡ true → (activity ≢ Activity.More) × (ended ≡ false)
        × ((activity ≡ Activity.Nothing) ⊎ NoneWaits pools.now.slots) }
    ensures active { result ≡ false
        → (activity ≡ Activity.More) ⊎ ((ended ≡ true) ⊎ (activity ≡ Activity.Starts)) }
{
    match activity {
        Activity::Nothing => !ended,
        Activity::Starts => !ended && pools.waiters() == 0,
        Activity::More => false,
    }
}
