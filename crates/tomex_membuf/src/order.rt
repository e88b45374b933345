//! Accesses that share a byte are made in program order.

ghost use Rattle.std.specs.Prelude.{ℕ, Decides, Some, ◌≡◌, ◌<◌};
ghost use Rattle.tomex_bus.specs.Sets.{has};
ghost use Rattle.tomex_rvexec.specs.Steps.{shares_byte};
ghost use Rattle.tomex_membuf.specs.Order.{HasAtMostOneAccess, HasEachBlocker, IsClear, IsClearAt, blocks};
ghost use Rattle.tomex_membuf.specs.Order.{stations_conflict, is_finished_before, lets_pass};
ghost use Rattle.tomex_tags.specs.Contents.{slot};

use tomex_bus::{both, is_single, lowest, without, without_lowest};
use tomex_rvexec::ByteRange;
use tomex_tags::{Pools, Station};

/// The place of the first store buffer.
const FIRST_STORE: usize = 64;

#[inline(always)]
fn shares_byte(a: Option<ByteRange>, b: Option<ByteRange>) -> bool
    ensures { result ≡ shares_byte a b }
{
    match (a, b) {
        (Some(a), Some(b)) => a.shares_byte(b),
        _ => false,
    }
}

#[inline(always)]
fn is_finished_before(finish: Option<u64>, cycle: u64) -> bool
    ensures { result ≡ is_finished_before finish cycle }
{
    match finish {
        Some(finish) => finish < cycle,
        None => false,
    }
}

/// True if the accesses of two stations, as far as their addresses are computed, share a byte, one
/// being a store.
#[inline(always)]
fn stations_conflict(other: &Station, station: &Station) -> bool
    ensures { result ≡ stations_conflict other.now station.now }
{
    match (other.address, station.address) {
        // No access has more than four bytes: the sizes matter only for two that are near.
        (Some(a), Some(b)) if a.abs_diff(b) < 4 => {
            shares_byte(other.bytes(), station.bytes())
                && (other.step().is_store() || station.step().is_store())
        }
        _ => false,
    }
}

/// True if an older station, if there is one, doesn't block `station`.
#[inline(always)]
fn lets_pass(other: Option<Station>, station: &Station, cycle: u64) -> bool
    ensures { result ≡ lets_pass other station.now cycle }
{
    match other {
        Some(other) => {
            !stations_conflict(&other, station) || is_finished_before(other.finish, cycle)
        }
        None => true,
    }
}

/// True if the station in a place blocks another: it is older, and doesn't let it pass.
#[inline(always)]
fn is_blocked_by(
    pools: &Pools,
    other: usize,
    station: &Station,
    issue_number: u32,
    cycle: u64,
) -> bool
    requires { other < 128 }
    ensures { result ≡ blocks pools.now other issue_number station.now cycle }
{
    pools.issue_numbers()[other] < issue_number && !lets_pass(pools.at(other), station, cycle)
}

/// The places of the other loads and stores with an address, which include every older one that
/// blocks the one in a place. For a load they are those of the stores.
#[inline(always)]
fn rivals(pools: &Pools, place: usize) -> u128
    requires { place < 128 }
    ensures { (s : Station) (cycle : ℕ) → slot pools.now.slots place ≡ Some s
        → HasEachBlocker pools.now place s cycle result }
{
    let addressed = pools.places_with_address();
    // No store is in a place below the store buffers.
    pools.keeps_places();
    if place >= FIRST_STORE {
        without(addressed, place)
    } else {
        both(addressed, pools.stores())
    }
}

/// True if no rival blocks the station in a place.
fn passes(pools: &Pools, place: usize, rivals: u128, station: &Station, cycle: u64) -> bool
    requires low { place < 128 }
    requires rivals { HasEachBlocker pools.now place station.now cycle rivals }
    ensures { Decides result
        (IsClear pools.now.slots pools.now.issue_numbers place station.now cycle) }
{
    let issue_number = pools.issue_numbers()[place];
    let mut rest = rivals;
    'members: while rest != 0 {
        let other = lowest(rest);
        rest = without_lowest(rest);
        if is_blocked_by(pools, other, station, issue_number, cycle) {
            return false;
        }
    }
    true
}

/// True if no older access blocks the one in a place: no older load or store whose address is
/// computed, and which wasn't finished before the cycle, shares a byte with it, one of the two
/// being a store.
///
/// Also true for a free place, an operation that isn't a load or store, or an access without its
/// address; callers only ask for accesses with an address, which this contract doesn't require.
/// Addresses are computed in program order (`address_next`), so once an access has its own, every
/// older one has one. Sets of places hold numbers below 128, so any of them may be passed; those
/// from 96 on have no station.
#[inline(always)]
pub fn may_access(pools: &Pools, place: usize, cycle: u64) -> bool
    requires { place < 128 }
    ensures { Decides result (IsClearAt pools.now place cycle) }
{
    let rivals = rivals(pools, place);
    // Usually there is none, and no station has to be read.
    if rivals == 0 {
        return true;
    }
    match pools.at(place) {
        Some(station) => passes(pools, place, rivals, &station, cycle),
        None => true,
    }
}

/// True if at most one load or store has its address: then none blocks another.
#[inline(always)]
pub fn is_alone(pools: &Pools) -> bool
    ensures { Decides result (HasAtMostOneAccess pools.now.slots) }
{
    is_single(pools.places_with_address())
}
