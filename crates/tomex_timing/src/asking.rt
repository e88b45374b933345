//! One walk that times, notes and keeps a run's next step, for the demands of the run.

ghost use Rattle.std.specs.Prelude.{◌≡◌, ℕ, ◌+◌, ◌-◌, ◌^◌, ◌<◌, ◌≤◌, ◌&&◌, ◌==◌, Some, IfOk, is_some, max};
ghost use Rattle.std.specs.Prelude.{if◌then◌else◌};
ghost use Rattle.tomex_config.specs.Configuration.{option_of};
ghost use Rattle.tomex_reservations.specs.Reservations.{IsFirst, bus_line, is_left, taken_at};
ghost use Rattle.tomex_rvdec.specs.Places.{place_of_unit};
ghost use Rattle.tomex_timing.specs.Ahead.{IsHeldAfter, IsNextBy, IsReady, IsSettledBy, IsTableAfter, TakesBus};
ghost use Rattle.tomex_timing.specs.Ahead.{RunsOn, end_in, ends_after, held_by, one, with_own};
ghost use Rattle.tomex_timing.specs.Demands.{demand_after, demands_after, stations_asked, units_asked};
ghost use Rattle.tomex_timing.specs.History.{cycle_of, is_of};
ghost use Rattle.tomex_timing.specs.Waiting.{past_branches, taken_from, waits_by};
ghost use Rattle.tomex_timing.specs.Recent.{AreInRange, latest_after};

use crate::accesses::past_conflicts;
use crate::demands::{Demand, Demands};
use crate::next::{Marks, Next, end_of, issue_from, ready_of};
use crate::recent::{Facts, Latest, Recent, keep_access};
use crate::times::Times;
use crate::turn::next_turn;
use std::alloc::{AllocError, Allocator};
use tomex_config::Config;
use tomex_reservations::{BUSES, ReservationTable, Room};
use tomex_rvdec::{PoolId, UnitId};

/// The slots that an operation takes in later cycles: a unit as it starts, and a bus as its result ends. Without a
/// result it ends as it finishes.
#[derive(Clone, Copy)]
struct Slots {
    start: Room,
    finish: u64,
    end: Room,
}

/// A step's issue: the first cycle in which it waits for neither a slot nor a branch, the cycle of its issue, the
/// number of steps that issue in it up to this one, its station's number in its pool, and its address cycle.
#[derive(Clone, Copy)]
struct Issued {
    from: u64,
    cycle: u64,
    count: u64,
    number: u8,
    address: Option<u64>,
}

/// Takes a bus for a result and notes it.
#[inline(always)]
fn take_bus<A: Allocator>(
    table: &mut ReservationTable<A>,
    demand: &mut Demand,
    config: &Config,
    dest: Option<u8>,
    finish: u64,
    bound: u64,
) -> Result<Room, AllocError>
    requires ahead { table.old.base ≤ finish }
    requires quiet { (t : ℕ) → bound < t → taken_at table.old bus_line t ≡ 0 }
    requires finish { finish ≤ bound + 66 }
    requires small { bound < 2 ^ 63 }
    ensures takes { IfOk result (λ r. TakesBus config.now table.old dest finish r.cycle r.taken) }
    ensures noted { IfOk result (λ r. demand.new ≡ demand_after demand.old r.taken (r.cycle - finish - 1)) }
    ensures base { table.new.base ≡ table.old.base }
    ensures units { IfOk result (λ _. (l t : ℕ) → l < 5 → table.old.base ≤ t
        → taken_at table.new l t ≡ taken_at table.old l t) }
    ensures buses { IfOk result (λ r. (t : ℕ) → table.old.base ≤ t
        → taken_at table.new bus_line t ≡ taken_at table.old bus_line t + one (is_some dest && r.cycle == t)) }
{
    if dest.is_some() {
        let room = table.reserve(BUSES, config.buses(), finish + 1, bound)?;
        demand.note(room.taken, room.cycle - finish - 1);
        Ok(room)
    } else {
        Ok(Room {
            cycle: finish,
            taken: 0,
        })
    }
}

/// Takes a unit and a bus for an operation, from the first cycle in which it may start, and notes them.
#[inline(always)]
fn take_slots<A: Allocator>(
    table: &mut ReservationTable<A>,
    demands: &mut Demands,
    config: &Config,
    facts: &Facts,
    unit: UnitId,
    clear: u64,
    bound: u64,
) -> Result<Slots, AllocError>
    requires unit { facts.now.unit ≡ Some unit }
    requires base { table.old.base ≤ bound }
    requires ahead { table.old.base ≤ clear }
    requires starts { (t : ℕ) → bound < t → taken_at table.old (place_of_unit unit) t ≡ 0 }
    requires results { (t : ℕ) → bound < t → taken_at table.old bus_line t ≡ 0 }
    requires clear { clear ≤ bound + 3 }
    requires small { bound < 2 ^ 63 }
    ensures start { IfOk result (λ s. IsFirst clear
        (is_left table.old (place_of_unit unit) (option_of config.now unit).units) s.start.cycle) }
    ensures units { IfOk result (λ s. s.start.taken ≡ with_own table.old (place_of_unit unit) s.start.cycle) }
    ensures finish { IfOk result (λ s. s.finish ≡ s.start.cycle + (option_of config.now unit).latency - 1) }
    ensures end { IfOk result
        (λ s. TakesBus config.now table.old facts.now.dest s.finish s.end.cycle s.end.taken) }
    ensures noted { IfOk result (λ s. demands.new ≡ record demands.old {
      units = units_asked facts.now.unit s.start.taken (s.start.cycle - clear) demands.old.units;
      buses = demand_after demands.old.buses s.end.taken (s.end.cycle - s.finish - 1);
    }) }
    ensures base { table.new.base ≡ table.old.base }
    ensures taken { IfOk result (λ s. (u : UnitId) (t : ℕ) → table.old.base ≤ t
        → taken_at table.new (place_of_unit u) t
        ≡ taken_at table.old (place_of_unit u) t + one (is_of u facts.now.unit && s.start.cycle == t)) }
    ensures sent { IfOk result (λ s. (t : ℕ) → table.old.base ≤ t → taken_at table.new bus_line t
        ≡ taken_at table.old bus_line t + one (is_some facts.now.dest && s.end.cycle == t)) }
{
    let start = table.reserve(unit.place(), config.units(unit), clear, bound)?;
    demands.units[unit.place()].note(start.taken, start.cycle - clear);
    let finish = start.cycle + u64::from(config.latency(unit)) - 1;
    let end = take_bus(table, &mut demands.buses, config, facts.dest, finish, bound)?;
    Ok(Slots { start, finish, end })
}

/// Notes a step's issue and its station.
#[inline(always)]
fn note_issue(demands: &mut Demands, latest: &Latest, pool: PoolId, issued: &Issued)
    requires branch { latest.now.branch < 2 ^ 63 }
    ensures { demands.new ≡ record demands.old {
      stations = stations_asked (Some pool) (issued.now.number + 1) (issued.now.cycle - issued.now.from)
          demands.old.stations;
      width = demand_after demands.old.width issued.now.count (issued.now.from - past_branches latest.now);
    } }
{
    let taken = u64::from(issued.number) + 1;
    demands.stations[pool.place()].note(taken, issued.cycle.saturating_sub(issued.from));
    let low = latest.issue.max(1).max(latest.branch + 1);
    demands
        .width
        .note(issued.count, issued.from.saturating_sub(low));
}

/// The cycle in which an access computes its address, from the end of its base's producer.
fn address_after(latest: &Latest, base: u64, issue: u64) -> u64
    requires base { base ≤ latest.now.end }
    requires issue { issue ≤ latest.now.end + 1 }
    requires address { latest.now.address ≤ latest.now.end }
    requires small { latest.now.end < 2 ^ 63 }
    ensures cycle { result ≡ max (max issue base) latest.now.address + 1 }
    ensures by { result ≤ latest.now.end + 2 }
{
    issue.max(base).max(latest.address) + 1
}

/// Completes an operation that has issued: notes its start, finish and end, and keeps the step, except as an access.
#[inline(always)]
fn run_issued<A: Allocator>(
    recent: &mut Recent<A>,
    demands: &mut Demands,
    config: &Config,
    facts: &Facts,
    pool: PoolId,
    unit: UnitId,
    issued: Issued,
) -> Result<Next, AllocError>
    requires pool { facts.now.pool ≡ Some pool }
    requires unit { facts.now.unit ≡ Some unit }
    requires range { AreInRange facts.now }
    requires settled { IsSettledBy (held_by recent.old) }
    requires small { recent.old.latest.end < 2 ^ 63 }
    requires count { let latest = recent.old.latest in
        issued.count ≡ (if issued.cycle == latest.issue then latest.issued + 1 else 1) }
    requires issue { (recent.old.latest.issue ≤ issued.cycle) × (issued.cycle ≤ recent.old.latest.end + 1) }
    requires address { cycle_of issued.address ≤ recent.old.latest.end + 2 }
    requires number { issued.number < 16 }
    ensures from { IfOk result (λ n. n.marks.from ≡ issued.from) }
    ensures issue { IfOk result (λ n. n.at.issue ≡ issued.cycle) }
    ensures address { IfOk result (λ n. n.at.address ≡ issued.address) }
    ensures station { IfOk result (λ n. n.at.station ≡ Some issued.number) }
    ensures run { let w = recent.old in let ends = w.latest.ends in IfOk result
        (λ n. RunsOn config.now w.table w.accesses.items facts.now (end_in ends facts.now.j) (end_in ends facts.now.k)
        n unit) }
    ensures noted { IfOk result (λ n. demands.new ≡ record demands.old {
      units = units_asked facts.now.unit n.units (n.at.start - n.marks.clear) demands.old.units;
      buses = demand_after demands.old.buses n.buses (n.at.end - n.at.finish - 1);
    }) }
    ensures latest { IfOk result (λ n. recent.new.latest ≡ latest_after facts.now n.at recent.old.latest) }
    ensures table { IfOk result (λ n. IsTableAfter facts.now n.at recent.old.table recent.new.table) }
    ensures stations { IfOk result
        (λ n. recent.new.stations.ends ≡ ends_after facts.now n.at recent.old.stations.ends) }
    ensures accesses { recent.new.accesses ≡ recent.old.accesses }
{
    let bound = recent.latest.end;
    let j = end_of(&recent.latest, facts.j);
    let k = end_of(&recent.latest, facts.k);
    let operands = issued.cycle.max(j.max(k)) + 1;
    let ready = ready_of(issued.cycle, issued.address, j, k);
    let clear = past_conflicts(&recent.accesses, facts, ready, bound);
    let slots = take_slots(
        &mut recent.table,
        demands,
        config,
        facts,
        unit,
        clear,
        bound,
    )?;
    recent.table.pass(issued.cycle);
    let at = Times {
        issue: issued.cycle,
        address: issued.address,
        start: slots.start.cycle,
        finish: slots.finish,
        end: slots.end.cycle,
        station: Some(issued.number),
    };
    recent.stations.take(pool, issued.number, slots.end.cycle);
    recent.latest.note_issued(facts, &at, issued.count);
    let marks = Marks {
        from: issued.from,
        operands,
        ready,
        clear,
    };
    Ok(Next {
        at,
        marks,
        units: slots.start.taken,
        buses: slots.end.taken,
    })
}

/// Times, notes and keeps a next step that takes a station and a unit.
#[inline(always)]
fn ask_operation<A: Allocator>(
    recent: &mut Recent<A>,
    demands: &mut Demands,
    config: &Config,
    facts: &Facts,
    pool: PoolId,
    unit: UnitId,
) -> Result<Next, AllocError>
    requires pool { facts.now.pool ≡ Some pool }
    requires unit { facts.now.unit ≡ Some unit }
    requires ready { IsReady config.now (held_by recent.old) facts.now }
    ensures next { IfOk result (λ n. IsNextBy config.now (held_by recent.old) facts.now n) }
    ensures noted { let latest = recent.old.latest in IfOk result (λ n. demands.new ≡ demands_after facts.now
        (waits_by latest n.marks n.at) (taken_from latest n) demands.old.total demands.old) }
    ensures held { IfOk result (λ n. IsHeldAfter facts.now n.at (held_by recent.old) (held_by recent.new)) }
{
    let latest = &recent.latest;
    let from = issue_from(config, latest);
    let free = recent.stations.first(pool, config.stations(pool), from);
    let issued = Issued {
        from,
        cycle: free.cycle,
        count: latest.count_issued_in(free.cycle),
        number: free.number,
        address: None,
    };
    note_issue(demands, latest, pool, &issued);
    // Two calls, so that an operation without an access reads no accesses.
    let Some(_) = facts.bytes else {
        return run_issued(recent, demands, config, facts, pool, unit, issued);
    };
    let base = end_of(latest, facts.j);
    let address = address_after(latest, base, free.cycle);
    let next = run_issued(
        recent,
        demands,
        config,
        facts,
        pool,
        unit,
        Issued {
            address: Some(address),
            ..issued
        },
    )?;
    keep_access(&mut recent.accesses, facts, &next.at)?;
    Ok(next)
}

/// Times, notes and keeps any other next step. There are few.
#[cold]
#[inline(never)]
fn ask_rest<A: Allocator>(
    recent: &mut Recent<A>,
    demands: &mut Demands,
    config: &Config,
    facts: &Facts,
) -> Result<Next, AllocError>
    requires ready { IsReady config.now (held_by recent.old) facts.now }
    ensures next { IfOk result (λ n. IsNextBy config.now (held_by recent.old) facts.now n) }
    ensures noted { let latest = recent.old.latest in IfOk result (λ n. demands.new ≡ demands_after facts.now
        (waits_by latest n.marks n.at) (taken_from latest n) demands.old.total demands.old) }
    ensures held { IfOk result (λ n. IsHeldAfter facts.now n.at (held_by recent.old) (held_by recent.new)) }
{
    let turn = next_turn(config, recent, facts);
    demands.note(facts, &turn.waits, &turn.taken);
    recent.keep(facts, &turn.next.at)?;
    Ok(turn.next)
}

/// Times, notes and keeps the next step.
#[inline(always)]
pub fn ask_next<A: Allocator>(
    recent: &mut Recent<A>,
    demands: &mut Demands,
    config: &Config,
    facts: &Facts,
) -> Result<Next, AllocError>
    requires ready { IsReady config.now (held_by recent.old) facts.now }
    ensures next { IfOk result (λ n. IsNextBy config.now (held_by recent.old) facts.now n) }
    ensures noted { let latest = recent.old.latest in IfOk result (λ n. demands.new ≡ demands_after facts.now
        (waits_by latest n.marks n.at) (taken_from latest n) demands.old.total demands.old) }
    ensures held { IfOk result (λ n. IsHeldAfter facts.now n.at (held_by recent.old) (held_by recent.new)) }
{
    if let (Some(pool), Some(unit)) = (facts.pool, facts.unit) {
        ask_operation(recent, demands, config, facts, pool, unit)
    } else {
        ask_rest(recent, demands, config, facts)
    }
}
