//! What each step has of its stretch's floor.

ghost use Rattle.std.specs.Prelude.{◌≡◌, ◌<◌, ◌≤◌, ◌+◌, ◌-◌, ◌^◌, ℕ, List, ◌∷◌, if◌then◌else◌, length, reverse, IfOk};
ghost use Rattle.std.specs.Prelude.{slice_index, slice_set};
ghost use Rattle.tomex_rvexec.specs.declared.step.Step.{Step};
ghost use Rattle.tomex_config.specs.Configuration.{latency_of};
ghost use Rattle.tomex_timing.specs.declared.times.Done.{Done};
ghost use Rattle.tomex_timing.specs.Recent.{AreInRange, facts_of};
ghost use Rattle.tomex_floor.specs.Floor.{floor_issue, floor_times};
ghost use Rattle.tomex_stretches.specs.Cycles.{floor_cycles, is_same};
ghost use Rattle.tomex_stretches.specs.Kept.{AreTouched, AreTouchedBy, IsLatest, IsLatestBy};

use crate::accesses::Accesses;
use crate::latest::Latest;
use crate::next::{issue_of, next_times};
use std::alloc::{AllocError, Allocator};
use tomex_config::Config;
use tomex_timing::{Facts, Run};

/// Notes a next step.
fn pass<A: Allocator + Clone>(
    config: &Config,
    width: usize,
    latest: &mut Latest,
    accesses: &mut Accesses<A>,
    facts: &Facts,
) -> Result<(), AllocError>
    requires width { (1 ≤ width) × (width ≤ 4) }
    requires range { AreInRange facts.now }
    requires small { latest.old.last < 2 ^ 63 }
    requires by { IsLatestBy latest.old.last latest.old }
    requires touched { AreTouchedBy latest.old.last accesses.old.by_byte }
    ensures latest { IfOk result (λ _. (h : List Done) (s : Step) → facts.now ≡ facts_of s → IsLatest h latest.old
        → AreTouched latest.old.base h accesses.old.by_byte
        → IsLatest (record { step = s; at = floor_times (latency_of config.now) width h s } ∷ h) latest.new) }
    ensures accesses { IfOk result (λ _. (h : List Done) (s : Step) → facts.now ≡ facts_of s → IsLatest h latest.old
        → AreTouched latest.old.base h accesses.old.by_byte → AreTouched latest.new.base
        (record { step = s; at = floor_times (latency_of config.now) width h s } ∷ h) accesses.new.by_byte) }
    ensures by { IfOk result (λ _. IsLatestBy latest.new.last latest.new) }
    ensures touched { IfOk result (λ _. AreTouchedBy latest.new.last accesses.new.by_byte) }
    ensures last { IfOk result (λ _. latest.new.last ≤ latest.old.last + 67) }
    ensures issue { IfOk result (λ _. slice_index latest.new.issues 0 ≤ latest.new.end) }
{
    let conflict = accesses.conflict(facts);
    let at = next_times(config, width, latest, facts, conflict);
    accesses.note(facts, at.finish)?;
    latest.note(facts, &at);
    Ok(())
}

/// Begins a stretch if the key has changed.
fn turn(latest: &mut Latest, before: Option<u32>, key: Option<u32>)
    requires { IsLatestBy latest.old.last latest.old }
    ensures { latest.new
        ≡ (if is_same before key then latest.old else record latest.old { base = latest.old.last }) }
{
    if before != key {
        latest.begin();
    }
}

/// Gives the last step all cycles that are left.
fn end_last<A: Allocator>(cycles: &mut Vec<u64, A>, left: u64)
    ensures { cycles.new.items ≡ slice_set cycles.old.items (length cycles.old.items - 1) left }
{
    if let Some(last) = cycles.last_mut() {
        *last = left;
    }
}

/// The cycles that each step of a run has on the floor of its stretch, by a configuration's latencies and width: no
/// machine with these latencies, or longer ones, and at most this width gives the steps of any keys fewer. The rest of
/// the configuration doesn't matter. The run is cut in stretches where the key changes.
///
/// The work is linear in the steps. The memory is for each byte that the run accesses, and 8 bytes a step.
pub fn floor_cycles<A: Allocator + Clone, B: Allocator>(
    alloc: A,
    run: &Run<B>,
    config: &Config,
    keys: &[Option<u32>],
) -> Result<Vec<u64, A>, AllocError>
    requires few { length run.now < 2 ^ 56 }
    requires keys { length keys.now ≡ length run.now }
    ensures { IfOk result (λ v. v.items
        ≡ reverse (floor_cycles (latency_of config.now) config.now.width (reverse run.now) (reverse keys.now))) }
{
    config.keeps_limits();
    let width = usize::from(config.width());
    let mut latest = Latest::none();
    let mut accesses = Accesses::none(alloc.clone()?);
    let mut cycles = Vec::new(alloc);
    let mut before = None;
    let facts = run.facts();
    for k in 0..facts.len() {
        turn(&mut latest, before, keys[k]);
        before = keys[k];
        pass(config, width, &mut latest, &mut accesses, &facts[k])?;
        cycles.push(issue_of(&latest, width) - latest.issues[0])?;
    }
    end_last(&mut cycles, latest.end - latest.issues[0] + 1);
    Ok(cycles)
}
