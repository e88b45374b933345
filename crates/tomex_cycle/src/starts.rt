//! Which operations start in a cycle, and what they do.

ghost use Rattle.std.specs.Prelude.{ℕ, ◌≡◌, ◌≢◌, ◌<◌, ◌≤◌, ◌+◌, ◌-◌, ◌/◌, ◌^◌, IfSome};
ghost use Rattle.std.specs.Prelude.{IsSome, None, Some, slice_set, true, ◌||◌};
ghost use Rattle.tomex_bus.specs.Sets.{has};
ghost use Rattle.tomex_tags.specs.Contents.{slot, with_start, step_in};
ghost use Rattle.tomex_tags.specs.Places.{pool_at};
ghost use Rattle.tomex_tags.specs.Pools.{AreBusy};
ghost use Rattle.tomex_tags.specs.WaitSets.{IsSetOf, waits_for};
ghost use Rattle.tomex_rvdec.specs.Operands.{pool_of, unit_of, unit_of_pool};
ghost use Rattle.tomex_rvexec.specs.Access.{HasStored, IsInside};
ghost use Rattle.tomex_rvexec.specs.Results.{byte_in, result_of};
ghost use Rattle.tomex_cycle.specs.Finishes.{IsTimetableOf};
ghost use Rattle.tomex_cycle.specs.Starts.{AllWaitFor, AreStartableFor, CanBegin, IsAccessFault, IsStarting, IsWanted};
ghost use Rattle.tomex_cycle.specs.Starts.{PerformsStores, StartsAll, StartsWithoutFault, access_fault};
ghost use Rattle.tomex_cycle.specs.Starts.{station_after_start};

use crate::finishes::Finishes;
use std::alloc::Allocator;
use tomex_bus::{both, is_single, lowest, pick, union, with, without_lowest};
use tomex_config::Config;
use tomex_membuf::{is_alone, may_access, read, write as write_bytes};
use tomex_rvdec::{PoolId, UnitId};
use tomex_rvexec::{Fault, FaultKind, Memory};
use tomex_tags::{Pools, Station, unit};

/// True if no older access blocks the one in a place, which otherwise waits only for a port.
#[inline(always)]
fn is_clear(pools: &Pools, place: usize, cycle: u64) -> bool
    requires below { place < 128 }
    requires waits { waits_for UnitId.Mem (slot pools.now.slots place) ≡ true }
    requires busy { AreBusy pools.now.slots pools.now.busy pools.now.issue_numbers }
    ensures { IsWanted pools.now cycle UnitId.Mem place result }
{
    may_access(pools, place, cycle)
}

/// The members of `waiting` that no older access blocks; otherwise they wait only for a port.
///
/// Usually at most one has its address, and this isn't called; it is kept out of line so that it costs its caller no
/// registers.
#[inline(never)]
fn clear_among(pools: &Pools, waiting: u128, cycle: u64) -> u128
    requires set { IsSetOf (waits_for UnitId.Mem) pools.now.slots waiting }
    requires busy { AreBusy pools.now.slots pools.now.busy pools.now.issue_numbers }
    ensures startable { AreStartableFor pools.now cycle UnitId.Mem result }
    ensures wait { AllWaitFor UnitId.Mem pools.now.slots result }
{
    let mut clear = 0;
    let mut rest = waiting;
    'members: while rest != 0 {
        let place = lowest(rest);
        rest = without_lowest(rest);
        if is_clear(pools, place, cycle) {
            clear = with(clear, place);
        }
    }
    clear
}

/// The places of the loads and stores whose accesses can start if a port is free.
fn accessible(pools: &Pools, cycle: u64) -> u128
    ensures startable { AreStartableFor pools.now cycle UnitId.Mem result }
    ensures wait { AllWaitFor UnitId.Mem pools.now.slots result }
    ensures busy { AreBusy pools.now.slots pools.now.busy pools.now.issue_numbers }
{
    let waiting = pools.waiters_for(UnitId::Mem);
    if waiting == 0 {
        return 0;
    }
    if is_alone(pools) {
        return waiting;
    }
    clear_among(pools, waiting, cycle)
}

/// The places whose operations can start if a unit of this kind is free; the kind isn't the memory
/// port.
#[inline(always)]
fn startable(pools: &Pools, unit: UnitId) -> u128
    requires { unit ≢ UnitId.Mem }
    ensures startable { (cycle : ℕ) → AreStartableFor pools.now cycle unit result }
    ensures wait { IsSetOf (waits_for unit) pools.now.slots result }
    ensures busy { AreBusy pools.now.slots pools.now.busy pools.now.issue_numbers }
{
    pools.waiters_for(unit)
}

/// The union of the five sets.
#[inline(always)]
fn union_of_five(alu: u128, mul: u128, div: u128, mem: u128, bru: u128) -> u128
    ensures { (x : ℕ)
        → has result x ≡ (has alu x || (has mul x || (has div x || (has mem x || has bru x)))) }
{
    union(alu, union(mul, union(div, union(mem, bru))))
}

/// The places whose operations start in the cycle: of each kind the oldest that can, at most as many as there are
/// units.
pub fn choose_starting(pools: &Pools, config: &Config, cycle: u64) -> u128
    ensures starting { IsStarting config.now pools.now cycle result }
    ensures busy { AreBusy pools.now.slots pools.now.busy pools.now.issue_numbers }
{
    let waiting = pools.waiters();
    if waiting == 0 {
        return 0;
    }
    let alu = startable(pools, UnitId::Alu);
    let mul = startable(pools, UnitId::Mul);
    let div = startable(pools, UnitId::Div);
    let mem = accessible(pools, cycle);
    let bru = startable(pools, UnitId::Bru);
    if is_single(waiting) {
        // Each kind has at least one unit.
        config.keeps_limits();
        return union_of_five(alu, mul, div, mem, bru);
    }
    let issue_numbers = pools.issue_numbers();
    union_of_five(
        pick(alu, issue_numbers, config.units(UnitId::Alu)),
        pick(mul, issue_numbers, config.units(UnitId::Mul)),
        pick(div, issue_numbers, config.units(UnitId::Div)),
        pick(mem, issue_numbers, config.units(UnitId::Mem)),
        pick(bru, issue_numbers, config.units(UnitId::Bru)),
    )
}

/// The result of the operation of the station in a place, or `None` if its access is outside memory.
///
/// Each pool has 16 places, in the order of the pools. The pool is found by comparisons, most frequent first: a
/// processor predicts each of them better than one jump to six targets.
#[inline(always)]
fn value_at<A: Allocator>(place: usize, station: &Station, memory: &Memory<A>) -> Option<u32>
    requires low { place < 96 }
    requires pool { pool_of station.now.instr.op ≡ Some (pool_at (place / 16)) }
    ensures value { IfSome result (λ v. v ≡ result_of (step_in station.now) (byte_in memory.now)) }
    ensures outside { IfSome result (λ v. IsInside memory.now (step_in station.now)) }
    ensures inside { CanBegin memory.now station.now → IsSome result }
{
    if place < 16 {
        read(PoolId::Alu, station, memory)
    } else if place >= 80 {
        read(PoolId::Bru, station, memory)
    } else if place >= 64 {
        read(PoolId::Store, station, memory)
    } else if place >= 48 {
        read(PoolId::Load, station, memory)
    } else if place < 32 {
        read(PoolId::Mul, station, memory)
    } else {
        read(PoolId::Div, station, memory)
    }
}

/// The cycles that the operation of the station in a place takes, and its result; `None` if its access is outside
/// memory.
#[inline(always)]
fn outcome<A: Allocator>(
    place: usize,
    station: &Station,
    memory: &Memory<A>,
    config: &Config,
) -> Option<(u8, u32)>
    requires low { place < 96 }
    requires own { unit_of station.now.instr.op ≡ Some (unit_of_pool (pool_at (place / 16))) }
    requires pool { pool_of station.now.instr.op ≡ Some (pool_at (place / 16)) }
    ensures value { (cycle : ℕ) → IfSome result (λ o. with_start (cycle + o.0 - 1) o.1 station.now
        ≡ station_after_start config.now cycle memory.now station.now) }
    ensures range { IfSome result (λ o. (1 ≤ o.0) × (o.0 ≤ 64)) }
    ensures outside { IfSome result (λ o. IsInside memory.now (step_in station.now)) }
    ensures inside { CanBegin memory.now station.now → IsSome result }
{
    let value = value_at(place, station, memory)?;
    Some((config.latency(unit(place)), value))
}

/// Starts the operation in a place if it hasn't started. Returns a fault if its access is outside memory.
fn begin_at<A: Allocator>(
    pools: &mut Pools,
    finishes: &mut Finishes,
    place: usize,
    memory: &Memory<A>,
    config: &Config,
    cycle: u64,
) -> Option<Fault>
    requires low { cycle < 2 ^ 41 }
    requires timetable { IsTimetableOf pools.old.slots cycle finishes.old }
    ensures slots { (s : Station) → slot pools.old.slots place ≡ Some s → CanBegin memory.now s
        → pools.new.slots
        ≡ slice_set pools.old.slots place (Some (station_after_start config.now cycle memory.now s)) }
    ensures good { (s : Station) → slot pools.old.slots place ≡ Some s → CanBegin memory.now s
        → result ≡ None }
    ensures only { IfSome result (IsAccessFault pools.old memory.now place) }
    ensures others { (x : ℕ) → x ≢ place → slot pools.new.slots x ≡ slot pools.old.slots x }
    ensures fault { (s : Station) → slot pools.old.slots place ≡ Some s → s.finish ≡ None
        → (IsInside memory.now (step_in s) → ⊥) → result ≡ Some (access_fault s) }
    ensures issue_numbers { pools.new.issue_numbers ≡ pools.old.issue_numbers }
    ensures timetable { result ≡ None → IsTimetableOf pools.new.slots cycle finishes.new }
{
    let Some(station) = pools.at(place) else {
        return None;
    };
    if station.finish.is_some() {
        return None;
    }
    match outcome(place, &station, memory, config) {
        Some((latency, value)) => {
            pools.start(place, cycle + u64::from(latency) - 1, value);
            finishes.wheel.put(u32::from(latency) - 1, place);
            None
        }
        None => Some(Fault {
            kind: FaultKind::Access,
            pc: station.pc,
        }),
    }
}

/// Starts the operations in the picked places, reading memory as it was before all of them.
pub fn begin<A: Allocator>(
    pools: &mut Pools,
    finishes: &mut Finishes,
    picked: u128,
    memory: &Memory<A>,
    config: &Config,
    cycle: u64,
) -> Option<Fault>
    requires low { cycle < 2 ^ 41 }
    requires timetable { IsTimetableOf pools.old.slots cycle finishes.old }
    ensures begins { StartsAll config.now cycle memory.now picked pools.old pools.new }
    ensures good { StartsWithoutFault memory.now picked pools.old result }
    ensures fault { IfSome result
        (λ f. (x : ℕ) × (has picked x ≡ true) × IsAccessFault pools.old memory.now x f) }
    ensures timetable { result ≡ None → IsTimetableOf pools.new.slots cycle finishes.new }
{
    let mut rest = picked;
    'members: while rest != 0 {
        let place = lowest(rest);
        rest = without_lowest(rest);
        let fault = begin_at(pools, finishes, place, memory, config, cycle);
        if fault.is_some() {
            return fault;
        }
    }
    None
}

/// Performs the store in a place, if there is one.
fn write_at<A: Allocator>(pools: &Pools, place: usize, memory: &mut Memory<A>)
    ensures stored { (s : Station) → slot pools.now.slots place ≡ Some s
        → HasStored (step_in s) memory.old memory.new }
    ensures none { slot pools.now.slots place ≡ None → memory.new ≡ memory.old }
{
    if let Some(station) = pools.at(place) {
        write_bytes(&station, memory);
    }
}

/// Performs the stores in the picked places.
pub fn write<A: Allocator>(pools: &Pools, picked: u128, memory: &mut Memory<A>)
    ensures { PerformsStores pools.now picked memory.old memory.new }
{
    let stores = both(picked, pools.stores());
    let mut rest = stores;
    'members: while rest != 0 {
        let place = lowest(rest);
        rest = without_lowest(rest);
        write_at(pools, place, memory);
    }
}
