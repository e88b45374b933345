//! Skipping the quiet cycles.

ghost use Rattle.std.specs.Prelude.{ℕ, ◌≡◌, ◌<◌, ◌≤◌, ◌+◌, ◌-◌, ◌^◌, true, false};
ghost use Rattle.tomex_cycle.specs.Finishes.{AreResults, CanSkip, IsSkipped, IsTimetableOf, SkipsFree};

use crate::finishes::Finishes;
use crate::inner::{Inner, Making};
use std::alloc::Allocator;
use tomex_bus::difference;
use tomex_config::Config;
use tomex_rvdec::UnitId;
use tomex_rvexec::Fetcher;
use tomex_tags::{Pools, places_served_by};

/// The number of cycles that can be skipped before the next finish, which is `ahead` cycles away if there is one; at
/// most `most`.
fn skippable(ahead: Option<u32>, most: u64) -> u64
    ensures most { result ≤ most }
    ensures skips { CanSkip ahead most result }
{
    match ahead {
        Some(ahead) if u64::from(ahead) < most => u64::from(ahead),
        _ => most,
    }
}

/// Skips the cycles after the one just made in which nothing finishes, up to `to`. Returns the cycle that it reaches.
fn skip_free(finishes: &mut Finishes, pools: &Pools, cycle: u64, to: u64) -> u64
    requires ahead { cycle ≤ to }
    requires timetable { IsTimetableOf pools.now.slots (cycle + 1) finishes.old }
    requires none_unsent { finishes.old.unsent ≡ 0 }
    ensures { SkipsFree pools.now.slots cycle to result finishes.new }
{
    let skipped = skippable(finishes.wheel.next(), to - cycle);
    finishes.wheel.pass(skipped);
    cycle + skipped
}

/// Takes what finishes in the next cycle as results that are unsent after it, if nothing else finishes in that cycle:
/// no branch, and nothing that ends as it finishes. True if it does.
#[inline(always)]
fn take_results(finishes: &mut Finishes, pools: &Pools) -> bool
    requires { finishes.old.unsent ≡ 0 }
    ensures none { result ≡ false → finishes.new ≡ finishes.old }
    ensures others { result ≡ false → (cycle : ℕ) → IsTimetableOf pools.now.slots cycle finishes.old
        → AreResults pools.now.slots cycle → ⊥ }
    ensures results { result ≡ true → (cycle : ℕ) → IsTimetableOf pools.now.slots cycle finishes.old
        → AreResults pools.now.slots cycle × IsTimetableOf pools.now.slots (cycle + 1) finishes.new }
{
    let results = difference(pools.writers(), places_served_by(UnitId::Bru));
    let others = difference(finishes.wheel.first(), results);
    if others != 0 {
        return false;
    }
    finishes.unsent = finishes.turn();
    true
}

/// Skips the cycles after the one just made in which no station changes, up to `to`. Returns the cycle that it reaches.
/// The last one is made if results finish in it.
#[inline(always)]
pub(crate) fn skip_quiet<A: Allocator, B: Allocator>(
    inner: &mut Inner<A>,
    finishes: &mut Finishes,
    fetcher: &mut Fetcher<'_, B>,
    config: &Config,
    cycle: u64,
    to: u64,
) -> u64
    requires ahead { cycle ≤ to }
    requires fits { inner.old.cycles_made < 2 ^ 41 }
    requires low { to < 2 ^ 41 }
    requires timetable { IsTimetableOf inner.old.pools.slots (cycle + 1) finishes.old }
    requires none_unsent { finishes.old.unsent ≡ 0 }
    ensures least { cycle ≤ result }
    ensures most { result ≤ to }
    ensures skipped { IsSkipped inner.old.pools.slots cycle to result
        inner.old.cycles_made inner.new.cycles_made }
    ensures timetable { IsTimetableOf inner.old.pools.slots (result + 1) finishes.new }
    ensures inner { inner.new ≡ record inner.old { cycles_made = inner.new.cycles_made } }
    ensures same { fetcher.new ≡ fetcher.old }
{
    let pools = inner.pools();
    let last_free = skip_free(finishes, pools, cycle, to);
    if last_free < to && take_results(finishes, pools) {
        inner.make_cycle(Making::CountOnly, finishes, fetcher, config, last_free + 1);
        return last_free + 1;
    }
    last_free
}
