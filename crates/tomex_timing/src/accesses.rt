//! The accesses to memory that are under way.

ghost use Rattle.std.specs.Prelude.{◌≡◌, ℕ, ◌+◌, ◌^◌, ◌<◌, ◌≤◌, ◌&&◌, ◌||◌, Some, not, max, nat_lt, nat_le, All};
ghost use Rattle.tomex_timing.specs.Ahead.{ArePast, access_conflicts};

use crate::recent::Facts;
use tomex_rvexec::ByteRange;

/// A load or store that may not have finished yet.
#[derive(Clone, Copy)]
pub struct Access {
    pub bytes: ByteRange,
    pub is_store: bool,
    pub finish: u64,
}

/// True if a step that touches these bytes conflicts with an older access: it shares a byte with it, and one of the two
/// is a store.
fn conflicts(older: &Access, bytes: ByteRange, is_store: bool) -> bool
    ensures { result ≡ access_conflicts older.now (Some bytes) is_store }
{
    (older.is_store || is_store) && older.bytes.shares_byte(bytes)
}

/// The cycle, or the one after `finish` if that is later and has to be waited for.
fn later(cycle: u64, waits: bool, finish: u64) -> u64
    requires small { finish < 2 ^ 63 }
    ensures past { (t : ℕ) → nat_le result t ≡ (nat_le cycle t && (not waits || nat_lt finish t)) }
    ensures from { cycle ≤ result }
    ensures by { result ≤ max cycle (finish + 1) }
{
    if waits && cycle <= finish {
        finish + 1
    } else {
        cycle
    }
}

/// The first cycle from `from` on that is later than the finish of each access that a step conflicts with.
pub(crate) fn past_conflicts(accesses: &[Access], facts: &Facts, from: u64, bound: u64) -> u64
    requires accesses { All (λ a. a.finish ≤ bound) accesses.now }
    requires small { bound < 2 ^ 63 }
    ensures past { ArePast facts.now accesses.now from result }
    ensures from { from ≤ result }
    ensures by { result ≤ max from (bound + 1) }
{
    let Some(bytes) = facts.bytes else {
        return from;
    };
    let mut cycle = from;
    for access in accesses {
        cycle = later(
            cycle,
            conflicts(access, bytes, facts.is_store),
            access.finish,
        );
    }
    cycle
}
