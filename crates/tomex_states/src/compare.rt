//! Whether two states look alike to the next step.

ghost use Rattle.std.specs.Prelude.{◌≡◌, ◌^◌, ◌<◌, ◌≤◌, ◌↔◌, IsTrue, length};
ghost use Rattle.tomex_timing.specs.Ahead.{IsSettledBy, held_by};
ghost use Rattle.tomex_timing.specs.Waiting.{past_branches};
ghost use Rattle.tomex_states.specs.Reuse.{AreAlike, AreAlikeTo, AreLatestAlike, AreStationsAlike};
ghost use Rattle.tomex_states.specs.Reuse.{CanBeKept, IsPoolAlike, LookAlike, ShowsSome, access_from, ahead_of};

use crate::state::State;
use std::alloc::Allocator;
use tomex_config::Config;
use tomex_reservations::Stations;
use tomex_rvdec::PoolId;
use tomex_timing::{Latest, issue_from};

/// How far a cycle is ahead: 1 for the first one that matters, 0 if it is over by then.
#[inline(always)]
pub(crate) fn ahead_of(first: u64, cycle: u64) -> u64
    requires { 0 < first }
    ensures { result ≡ ahead_of first cycle }
{
    cycle.saturating_sub(first - 1)
}

/// The first cycle in which a step waits for nothing but the width.
fn past_branches(latest: &Latest) -> u64
    requires { latest.now.branch < 2 ^ 63 }
    ensures { result ≡ past_branches latest.now }
{
    latest.issue.max(1).max(latest.branch + 1)
}

/// True if latest cycles look alike from the first cycles on that matter, except for the registers' ends.
fn are_latest_alike(here: u64, there: u64, one: &Latest, other: &Latest) -> bool
    requires here { 0 < here }
    requires there { 0 < there }
    requires issued { one.now.issued < 2 ^ 63 }
    requires other_issued { other.now.issued < 2 ^ 63 }
    requires branch { one.now.branch < 2 ^ 63 }
    requires other_branch { other.now.branch < 2 ^ 63 }
    ensures { IsTrue result ↔ AreLatestAlike here there one.now other.now }
{
    ahead_of(here, one.end) == ahead_of(there, other.end)
        && one.count_issued_in(here) == other.count_issued_in(there)
        && here.saturating_sub(past_branches(one)) == there.saturating_sub(past_branches(other))
        && one.address.saturating_sub(here) == other.address.saturating_sub(there)
}

/// True if pairs of cycles do.
fn are_alike(here: u64, there: u64, one: &[u64], other: &[u64]) -> bool
    requires here { 0 < here }
    requires there { 0 < there }
    requires pairs { length one.now ≡ length other.now }
    ensures { IsTrue result ↔ AreAlikeTo (length one.now) here there one.now other.now }
{
    for (place, cycle) in one.iter().enumerate() {
        if ahead_of(here, *cycle) != ahead_of(there, other[place]) {
            return false;
        }
    }
    true
}

/// True if the stations of a pool do.
fn is_pool_alike(
    pool: PoolId,
    count: u8,
    here: u64,
    there: u64,
    one: &Stations,
    other: &Stations,
) -> bool
    requires few { count ≤ 16 }
    requires here { 0 < here }
    requires there { 0 < there }
    ensures { IsTrue result ↔ IsPoolAlike count pool here there one.now.ends other.now.ends }
{
    for number in 0..count {
        let place = 16 * pool.place() + usize::from(number);
        if ahead_of(here, one.ends[place]) != ahead_of(there, other.ends[place]) {
            return false;
        }
    }
    true
}

/// True if the stations that the machine has do.
fn are_stations_alike(
    config: &Config,
    here: u64,
    there: u64,
    one: &Stations,
    other: &Stations,
) -> bool
    requires here { 0 < here }
    requires there { 0 < there }
    ensures { IsTrue result ↔ AreStationsAlike config.now here there one.now.ends other.now.ends }
{
    for pool in PoolId::ALL {
        if !is_pool_alike(pool, config.stations(pool), here, there, one, other) {
            return false;
        }
    }
    true
}

impl<A: Allocator> State<A> {
    /// The first cycle in which a next access may start.
    pub(crate) fn access_from(&self, config: &Config) -> u64
        requires settled { IsSettledBy (held_by self.now.recent) }
        requires small { self.now.recent.latest.end < 2 ^ 63 }
        ensures { result ≡ access_from config.now self.now }
    {
        let latest = &self.recent.latest;
        issue_from(config, latest).max(latest.address) + 2
    }

    /// True if a state looks like this one to the next step: what it sees is the same, some cycles apart.
    pub fn looks_like(&self, other: &State<A>, config: &Config) -> bool
        requires shows { ShowsSome config.now self.now }
        requires other_shows { ShowsSome config.now other.now }
        requires small { self.now.recent.latest.end < 2 ^ 63 }
        requires other_small { other.now.recent.latest.end < 2 ^ 63 }
        ensures exact { IsTrue result ↔ AreAlike config.now self.now other.now }
        ensures alike { IsTrue result → CanBeKept config.now self.now → CanBeKept config.now other.now
            → LookAlike config.now self.now other.now }
    {
        config.keeps_limits();
        let one = &self.recent;
        let two = &other.recent;
        let here = issue_from(config, &one.latest);
        let there = issue_from(config, &two.latest);
        let ahead = ahead_of(here, one.latest.end);
        are_latest_alike(here, there, &one.latest, &two.latest)
            && are_alike(here, there, &one.latest.ends, &two.latest.ends)
            && are_stations_alike(config, here, there, &one.stations, &two.stations)
            && one.table.looks_like(here, &two.table, there, ahead)
            && are_alike(
                self.access_from(config),
                other.access_from(config),
                &self.window.finishes,
                &other.window.finishes,
            )
    }
}
