//! The times of the next step, given what is kept of the earlier ones.

ghost use Rattle.std.specs.Prelude.{◌≡◌, ℕ, ◌+◌, ◌-◌, ◌^◌, ◌<◌, ◌≤◌, None, max, IfSome, slice_index};
ghost use Rattle.tomex_timing.specs.Ahead.{IsIdle, IsNextBy, IsReady, TakesBus, TakesStation, end_in, held_by};
ghost use Rattle.tomex_reservations.specs.Reservations.{bus_line, end_at, taken_at};
ghost use Rattle.tomex_timing.specs.History.{cycle_of};
ghost use Rattle.tomex_timing.specs.Recent.{address_among, issue_from, ready_from};

use crate::accesses::past_conflicts;
use crate::recent::{Facts, Latest, Recent};
use crate::times::Times;
use std::alloc::Allocator;
use tomex_config::Config;
use tomex_reservations::{BUSES, ReservationTable, Room, Stations};
use tomex_rvdec::PoolId;

/// The cycles from which on a next step waits for one thing less. Without a unit it waits for nothing after its issue.
#[derive(Clone, Copy)]
pub struct Marks {
    /// With a slot to issue in, and each older branch finished.
    pub from: u64,
    pub operands: u64,
    /// With its address too.
    pub ready: u64,
    /// Also with no older access that blocks it.
    pub clear: u64,
}

/// The times of a next step, the marks between its waits, and how many units of its kind and how many buses are taken,
/// including its own: 0 if it takes none.
#[derive(Clone, Copy)]
pub struct Next {
    pub at: Times,
    pub marks: Marks,
    pub units: u64,
    pub buses: u64,
}

/// The end of the producer of a register's content; 0 without a register.
// Without a register it reads x0's, so that no jump depends on it.
pub fn end_of(latest: &Latest, register: Option<u8>) -> u64
    requires register { IfSome register (λ r. r < 32) }
    requires zero { slice_index latest.now.ends 0 ≡ 0 }
    ensures { result ≡ end_in latest.now.ends register }
{
    latest.ends[usize::from(register.unwrap_or(0))]
}

/// The first cycle that is in program order, has room for an issue, and is later than each branch's
/// finish.
pub fn issue_from(config: &Config, latest: &Latest) -> u64
    requires issue { latest.now.issue ≤ latest.now.end }
    requires branch { latest.now.branch ≤ latest.now.end }
    requires small { latest.now.end < 2 ^ 63 }
    ensures from { result ≡ issue_from config.now latest.now }
    ensures later { latest.now.issue ≤ result }
    ensures by { result ≤ latest.now.end + 1 }
{
    let from = if latest.issued < u64::from(config.width()) {
        latest.issue
    } else {
        latest.issue + 1
    };
    from.max(latest.branch + 1)
}

/// The cycle of a step's issue, and the station that it takes, if it takes one.
#[inline(always)]
fn station_of(
    config: &Config,
    stations: &Stations,
    pool: Option<PoolId>,
    from: u64,
    bound: u64,
) -> (u64, Option<u8>)
    requires stations { (p : PoolId) (n : ℕ) → n < 16 → end_at stations.now.ends p n ≤ bound }
    requires from { from ≤ bound + 1 }
    requires small { bound < 2 ^ 63 }
    ensures takes { TakesStation config.now stations.now.ends pool from result.0 result.1 }
    ensures from { from ≤ result.0 }
    ensures by { result.0 ≤ bound + 1 }
    ensures number { IfSome result.1 (λ n. n < 16) }
{
    match pool {
        None => (from, None),
        Some(pool) => {
            let free = stations.first(pool, config.stations(pool), from);
            (free.cycle, Some(free.number))
        }
    }
}

/// The cycle in which a load or store computes its address, from the end of its base's producer.
fn address_of(latest: &Latest, pool: Option<PoolId>, base: u64, issue: u64) -> Option<u64>
    requires base { base ≤ latest.now.end }
    requires issue { issue ≤ latest.now.end + 1 }
    requires address { latest.now.address ≤ latest.now.end }
    requires small { latest.now.end < 2 ^ 63 }
    ensures cycle { result ≡ address_among latest.now pool base issue }
    ensures by { cycle_of result ≤ latest.now.end + 2 }
{
    match pool {
        Some(PoolId::Load | PoolId::Store) => Some(issue.max(base).max(latest.address) + 1),
        _ => None,
    }
}

/// The first cycle after a step's issue, its address and the ends of its operands' producers.
pub(crate) fn ready_of(issue: u64, address: Option<u64>, j: u64, k: u64) -> u64
    requires issue { issue < 2 ^ 63 + 2 }
    requires address { cycle_of address < 2 ^ 63 + 2 }
    requires j { j < 2 ^ 63 }
    requires k { k < 2 ^ 63 }
    ensures { result ≡ ready_from issue address j k }
{
    issue.max(address.unwrap_or(0)).max(j.max(k)) + 1
}

/// The end of a step that finishes.
#[inline(always)]
fn end_after<A: Allocator>(
    config: &Config,
    table: &ReservationTable<A>,
    dest: Option<u8>,
    finish: u64,
    bound: u64,
) -> Room
    requires ahead { table.now.base ≤ finish }
    requires quiet { (t : ℕ) → bound < t → taken_at table.now bus_line t ≡ 0 }
    requires finish { finish ≤ bound + 66 }
    requires small { bound < 2 ^ 63 }
    ensures { TakesBus config.now table.now dest finish result.cycle result.taken }
{
    if dest.is_some() {
        table.first_free(BUSES, config.buses(), finish + 1, bound)
    } else {
        Room {
            cycle: finish,
            taken: 0,
        }
    }
}

/// A step that uses no unit starts, finishes and ends as it issues, and takes no bus.
fn without_unit(from: u64, issue: u64, address: Option<u64>, station: Option<u8>) -> Next
    ensures idle { IsIdle result }
    ensures from { result.marks.from ≡ from }
    ensures issue { result.at.issue ≡ issue }
    ensures address { result.at.address ≡ address }
    ensures station { result.at.station ≡ station }
{
    Next {
        at: Times {
            issue,
            address,
            start: issue,
            finish: issue,
            end: issue,
            station,
        },
        marks: Marks {
            from,
            operands: issue,
            ready: issue,
            clear: issue,
        },
        units: 0,
        buses: 0,
    }
}

/// The next step.
// Inlined, as are the other calls of the loops over a run's steps: what a loop doesn't use isn't made.
#[inline(always)]
pub(crate) fn next_step<A: Allocator>(config: &Config, recent: &Recent<A>, facts: &Facts) -> Next
    requires { IsReady config.now (held_by recent.now) facts.now }
    ensures { IsNextBy config.now (held_by recent.now) facts.now result }
{
    let latest = &recent.latest;
    let j = end_of(latest, facts.j);
    let k = end_of(latest, facts.k);
    let from = issue_from(config, latest);
    let (issue, station) = station_of(config, &recent.stations, facts.pool, from, latest.end);
    let address = address_of(latest, facts.pool, j, issue);
    let Some(unit) = facts.unit else {
        return without_unit(from, issue, address, station);
    };
    let operands = issue.max(j.max(k)) + 1;
    let ready = ready_of(issue, address, j, k);
    let clear = past_conflicts(&recent.accesses, facts, ready, latest.end);
    let start = recent
        .table
        .first_free(unit.place(), config.units(unit), clear, latest.end);
    let finish = start.cycle + u64::from(config.latency(unit)) - 1;
    let end = end_after(config, &recent.table, facts.dest, finish, latest.end);
    Next {
        at: Times {
            issue,
            address,
            start: start.cycle,
            finish,
            end: end.cycle,
            station,
        },
        marks: Marks {
            from,
            operands,
            ready,
            clear,
        },
        units: start.taken,
        buses: end.taken,
    }
}
