//! The issue of one instruction, and of more in the same cycle.

ghost use Rattle.std.specs.Prelude.{ℕ, ◌≡◌, Ok, false};
ghost use Rattle.tomex_cycle.specs.Finishes.{KeepsTimetable};
ghost use Rattle.tomex_cycle.specs.Issue.{IssuesMore, IssuesNext};
ghost use Rattle.tomex_cycle.specs.Views.{front};

use crate::fetch::Fetch;
use std::alloc::Allocator;
use tomex_config::Config;
use tomex_rvexec::{Fault, Fetcher};
use tomex_tags::{Pools, RegStatus, issue};
use tomex_timing::Tag;

/// Issues the next instruction, unless it waits for a branch or for a station. True if it does.
///
/// Inlined, so that the first issue of a cycle stays in the loop that makes the cycles.
#[inline(always)]
pub fn issue_next<A: Allocator>(
    pools: &mut Pools,
    registers: &mut RegStatus,
    fetch: &mut Fetch,
    count: u32,
    fetcher: &mut Fetcher<'_, A>,
    config: &Config,
) -> Result<bool, Fault>
    ensures issues { IssuesNext fetcher.old config.now count
        (front pools.old registers.old fetch.old) result
        (front pools.new registers.new fetch.new) }
    ensures none { result ≡ Ok false → pools.new ≡ pools.old }
    ensures timetable { (cycle : ℕ) → KeepsTimetable cycle pools.old.slots pools.new.slots }
    ensures same { fetcher.new ≡ fetcher.old }
{
    let pc = match *fetch {
        Fetch::At(pc) => pc,
        _ => return Ok(false),
    };
    let instr = match fetcher.fetch(pc) {
        Ok(instr) => instr,
        Err(kind) => return Err(Fault { kind, pc }),
    };
    let pool = match instr.pool() {
        Some(pool) => pool,
        None => {
            *fetch = Fetch::after(instr, pc);
            return Ok(true);
        }
    };
    let number = match pools.free(pool, config.stations(pool)) {
        Some(number) => number,
        None => return Ok(false),
    };
    issue(pools, registers, Tag { pool, number }, instr, pc, count);
    *fetch = Fetch::after(instr, pc);
    Ok(true)
}

/// Issues more instructions in a cycle in which one has issued, as many as the configuration's width leaves, up to the
/// first that can't, and counts each. A fault of fetching is left to the next cycle, in which it comes first.
///
/// Out of line, and returns nothing, so that cycles of width 1, which never call it, pay neither registers nor a place
/// for the result.
#[cold]
#[inline(never)]
pub fn issue_more<A: Allocator>(
    pools: &mut Pools,
    registers: &mut RegStatus,
    fetch: &mut Fetch,
    count: &mut u32,
    fetcher: &mut Fetcher<'_, A>,
    config: &Config,
)
    ensures issues { IssuesMore fetcher.old config.now
        count.old (front pools.old registers.old fetch.old)
        count.new (front pools.new registers.new fetch.new) }
    ensures timetable { (cycle : ℕ) → KeepsTimetable cycle pools.old.slots pools.new.slots }
    ensures same { fetcher.new ≡ fetcher.old }
{
    let width = config.width();
    let mut made = 1;
    'issues: while made < width {
        let more = issue_next(pools, registers, fetch, *count, fetcher, config).unwrap_or(false);
        if !more {
            return;
        }
        *count = count.wrapping_add(1);
        made += 1;
    }
}
