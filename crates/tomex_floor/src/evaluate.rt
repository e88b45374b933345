//! The evaluation of floors.

ghost use Rattle.std.specs.Prelude.{◌≡◌, ◌<◌, ◌≤◌, ◌-◌, ◌^◌, ℕ, List, ◌∷◌, length, All, IfOk, slice_index};
ghost use Rattle.tomex_rvexec.specs.declared.step.Step.{Step};
ghost use Rattle.tomex_timing.specs.declared.times.Done.{Done};
ghost use Rattle.tomex_timing.specs.Recurrence.{conflicts};
ghost use Rattle.tomex_timing.specs.Search.{times_in, total_of};
ghost use Rattle.tomex_floor.specs.Floor.{floor_times, floors_by_width, last_finish};
ghost use Rattle.tomex_config.specs.Configuration.{latency_of};
ghost use Rattle.tomex_timing.specs.Recent.{AreInRange, facts_of};
ghost use Rattle.tomex_floor.specs.Kept.{AreConflicts, AreLatest, IsLatest, IsLatestBy, finish_of, history_after};

use crate::accesses::Accesses;
use crate::latest::Latest;
use crate::next::next_times;
use std::alloc::{AllocError, Allocator};
use tomex_config::Config;
use tomex_timing::{Facts, Run};

/// Notes a next step for one width. Returns its finish.
#[inline(always)]
fn pass(config: &Config, width: usize, latest: &mut Latest, facts: &Facts, conflict: u64) -> u64
    requires width { (1 ≤ width) × (width ≤ 4) }
    requires range { AreInRange facts.now }
    requires small { IsLatestBy (2 ^ 63) latest.old }
    requires conflict { conflict ≤ 2 ^ 63 }
    ensures latest { (h : List Done) (s : Step) → facts.now ≡ facts_of s → IsLatest h latest.old
        → conflict ≡ last_finish (λ x. conflicts x s) h
        → IsLatest (record { step = s; at = floor_times (latency_of config.now) width h s } ∷ h) latest.new }
    ensures finish { (h : List Done) (s : Step) → facts.now ≡ facts_of s → IsLatest h latest.old
        → conflict ≡ last_finish (λ x. conflicts x s) h
        → result ≡ (floor_times (latency_of config.now) width h s).finish }
{
    let at = next_times(config, width, latest, facts, conflict);
    latest.note(facts, &at);
    at.finish
}

/// Notes a next step for the widths from 1 to 4. Returns its finishes.
#[inline(always)]
fn pass_all(
    config: &Config,
    latest: &mut [Latest; 4],
    facts: &Facts,
    conflict: &[u64; 4],
) -> [u64; 4]
    requires range { AreInRange facts.now }
    requires small { All (IsLatestBy (2 ^ 63)) latest.old }
    requires conflict { (n : ℕ) → n < 4 → slice_index conflict.now n ≤ 2 ^ 63 }
    ensures latest { (s : Step) (h : ℕ → List Done) → facts.now ≡ facts_of s → AreLatest h latest.old
        → AreConflicts s h conflict.now → AreLatest (history_after (latency_of config.now) s h) latest.new }
    ensures count { length latest.new ≡ 4 }
    ensures finishes { (s : Step) (h : ℕ → List Done) (n : ℕ) → n < 4 → facts.now ≡ facts_of s
        → AreLatest h latest.old → AreConflicts s h conflict.now
        → slice_index result n ≡ finish_of (latency_of config.now) s h n }
{
    let mut finishes = [0; 4];
    for n in 0..4usize {
        finishes[n] = pass(config, n + 1, &mut latest[n], facts, conflict[n]);
    }
    finishes
}

/// The floors of a run, in cycles, for a configuration's latencies and the issue widths from 1 to 4: no machine with
/// these latencies, or longer ones, and at most this width takes fewer. The rest of the configuration doesn't matter.
///
/// The work is linear in the steps. The memory is for each word that the run accesses.
pub fn floors<A: Allocator + Clone, B: Allocator>(
    alloc: A,
    run: &Run<B>,
    config: &Config,
) -> Result<[u64; 4], AllocError>
    requires few { length run.now < 2 ^ 56 }
    ensures exact { IfOk result (λ f. f ≡ floors_by_width (latency_of config.now) run.now) }
    ensures bound { IfOk result
        (λ f. slice_index f (config.now.width - 1) ≤ total_of (times_in config.now run.now)) }
{
    let mut latest = [Latest::none(); 4];
    let mut accesses = Accesses::none(alloc);
    config.keeps_limits();
    let facts = run.facts();
    for step in facts {
        let conflict = accesses.conflict(step);
        let finishes = pass_all(config, &mut latest, step, &conflict);
        accesses.note(step, &finishes)?;
    }
    Ok([latest[0].end, latest[1].end, latest[2].end, latest[3].end])
}
