//! The phases of a cycle, in their order. Starts, the address and the issues read nothing that an earlier phase of the
//! cycle has changed; the ends also read the finishes of what has just started.

ghost use Rattle.std.specs.Prelude.{ℕ, ◌≡◌, ◌<◌, ◌+◌, ◌^◌, IfSome, None, Ok, Some, false, true};
ghost use Rattle.tomex_cycle.specs.Finishes.{IsTimetableOf, KeepsTimetable};
ghost use Rattle.tomex_cycle.specs.Phases.{AddressHappens, EndsHappen, MakesStarts, MakesAddress};
ghost use Rattle.tomex_cycle.specs.Phases.{MakesIssue, MakesEnds, StartsHappen};
ghost use Rattle.tomex_cycle.specs.Starts.{IsAccessFault};
ghost use Rattle.tomex_cycle.specs.Views.{front};

use crate::fetch::Fetch;
use crate::finishes::Finishes;
use crate::issue::{issue_more, issue_next};
use crate::{ends, starts};
use std::alloc::Allocator;
use tomex_config::Config;
use tomex_membuf::address_next;
use tomex_rvexec::{Fault, Fetcher, Memory};
use tomex_tags::{Pools, RegStatus};

/// The outcome of a cycle's starts.
#[derive(Clone, Copy)]
pub struct Starts {
    /// The fault of an access outside memory.
    pub fault: Option<Fault>,
    /// True if anything starts.
    pub any: bool,
}

/// Starts operations, the oldest first; loads and stores access memory.
pub fn start<A: Allocator>(
    pools: &mut Pools,
    memory: &mut Memory<A>,
    finishes: &mut Finishes,
    config: &Config,
    cycle: u64,
) -> Starts
    requires low { cycle < 2 ^ 41 }
    requires timetable { IsTimetableOf pools.old.slots cycle finishes.old }
    ensures starts { MakesStarts config.now cycle
        pools.old memory.old result.fault pools.new memory.new }
    ensures none { result.any ≡ false → pools.new.slots ≡ pools.old.slots }
    ensures any { result.any ≡ true → StartsHappen config.now cycle pools.old }
    ensures fault { IfSome result.fault (λ f. (x : ℕ) × IsAccessFault pools.old memory.old x f) }
    ensures timetable { result.fault ≡ None → IsTimetableOf pools.new.slots cycle finishes.new }
{
    let starting = starts::choose_starting(pools, config, cycle);
    if starting == 0 {
        return Starts {
            fault: None,
            any: false,
        };
    }
    let fault = starts::begin(pools, finishes, starting, memory, config, cycle);
    starts::write(pools, starting, memory);
    Starts { fault, any: true }
}

/// Computes the address of the oldest load or store without one, if its base has arrived. True if it does.
pub fn address(pools: &mut Pools, cycle: u64) -> bool
    ensures addresses { MakesAddress cycle pools.old pools.new }
    ensures none { result ≡ false → pools.new.slots ≡ pools.old.slots }
    ensures any { result ≡ true → AddressHappens cycle pools.old }
    ensures timetable { KeepsTimetable cycle pools.old.slots pools.new.slots }
{
    match address_next(pools) {
        Some(place) => {
            pools.compute_address(place);
            true
        }
        None => false,
    }
}

/// Issues the next instructions, at most as many as the configuration's width, up to the first that can't issue, and
/// counts them. True if any has issued.
#[inline(always)]
pub fn issue<A: Allocator>(
    pools: &mut Pools,
    registers: &mut RegStatus,
    fetch: &mut Fetch,
    count: &mut u32,
    fetcher: &mut Fetcher<'_, A>,
    config: &Config,
) -> Result<bool, Fault>
    ensures issues { (cycle : ℕ) → MakesIssue fetcher.old config.now cycle
        count.old (front pools.old registers.old fetch.old) result
        count.new (front pools.new registers.new fetch.new) }
    ensures none { result ≡ Ok false → pools.new.slots ≡ pools.old.slots }
    ensures timetable { (cycle : ℕ) → KeepsTimetable cycle pools.old.slots pools.new.slots }
    ensures same { fetcher.new ≡ fetcher.old }
{
    if !issue_next(pools, registers, fetch, *count, fetcher, config)? {
        return Ok(false);
    }
    *count = count.wrapping_add(1);
    // Fast path: most configurations have width 1.
    if config.width() == 1 {
        return Ok(true);
    }
    issue_more(pools, registers, fetch, count, fetcher, config);
    Ok(true)
}

/// Sends results over the buses, frees stations, and follows branches. True if anything ends or finishes.
pub fn end(
    pools: &mut Pools,
    registers: &mut RegStatus,
    fetch: &mut Fetch,
    finishes: &mut Finishes,
    config: &Config,
    cycle: u64,
) -> bool
    requires timetable { IsTimetableOf pools.old.slots cycle finishes.old }
    ensures ends { MakesEnds config.now cycle
        (front pools.old registers.old fetch.old) (front pools.new registers.new fetch.new) }
    ensures none { result ≡ false → pools.new.slots ≡ pools.old.slots }
    ensures any { result ≡ true → EndsHappen config.now cycle pools.old }
    ensures timetable { IsTimetableOf pools.new.slots (cycle + 1) finishes.new }
    ensures none_unsent { result ≡ false → finishes.new.unsent ≡ 0 }
{
    let due = finishes.turn();
    // In many cycles nothing finishes and no result waits.
    if due == 0 && finishes.unsent == 0 {
        pools.keeps_places();
        return false;
    }
    let chosen = ends::choose_ending(pools, finishes, due, config.buses(), cycle);
    ends::follow(fetch, pools, chosen.due, cycle);
    if chosen.ending == 0 {
        return chosen.due != 0;
    }
    ends::apply(pools, registers, chosen.ending);
    true
}
