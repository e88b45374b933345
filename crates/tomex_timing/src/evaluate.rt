//! The evaluation of a run.

ghost use Rattle.std.specs.Prelude.{◌≡◌, ◌<◌, ◌≤◌, ◌*◌, ◌^◌, List, length, All, IfOk};
ghost use Rattle.tomex_timing.specs.Demands.{AreDemands};
ghost use Rattle.tomex_timing.specs.Needs.{AreNeeds, waits_in};
ghost use Rattle.tomex_timing.specs.Recurrence.{AreTimed};
ghost use Rattle.tomex_timing.specs.Search.{history, times_in, total_of};
ghost use Rattle.tomex_rvexec.specs.declared.step.Step.{Step};
ghost use Rattle.tomex_timing.specs.Waiting.{AreWithin};
ghost use Rattle.tomex_timing.specs.Recent.{AreFacts};

use crate::asking::ask_next;
use crate::demands::Demands;
use crate::need::Waits;
use crate::needs::Needs;
use crate::next::next_step;
use crate::recent::{Facts, Recent, facts_of};
use crate::times::Times;
use crate::turn::next_turn;
use std::alloc::{AllocError, Allocator};
use tomex_config::Config;
use tomex_rvexec::Step;

/// The times of a run's steps on a configuration, in program order.
///
/// The work is linear in the steps: of the earlier ones only what may still block a step is kept. A cycle is at most 67
/// times the number of steps, so fewer than 2^56 of them, more than a memory holds, keep every cycle within 64 bits.
pub fn times<A: Allocator + Clone>(
    alloc: A,
    steps: &[Step],
    config: &Config,
) -> Result<Vec<Times, A>, AllocError>
    requires few { length steps.now < 2 ^ 56 }
    ensures exact { IfOk result (λ v. v.items ≡ times_in config.now steps.now) }
    ensures recurrence { IfOk result (λ v. AreTimed config.now (history config.now steps.now)) }
    ensures pairs { IfOk result (λ v. length v.items ≡ length steps.now) }
    ensures bound { IfOk result (λ v. total_of v.items ≤ 67 * length steps.now) }
{
    let mut result = Vec::new(alloc.clone()?);
    let mut recent = Recent::new(&alloc, &alloc);
    config.keeps_limits();
    for step in steps {
        let facts = Facts::of(step);
        let at = next_step(config, &recent, &facts).at;
        recent.keep(&facts, &at)?;
        result.push(at)?;
    }
    Ok(result)
}

/// The cycles that each step of a run waits on a configuration, in program order.
///
/// The work is that of `times`.
pub fn waits<A: Allocator + Clone>(
    alloc: A,
    steps: &[Step],
    config: &Config,
) -> Result<Vec<Waits, A>, AllocError>
    requires few { length steps.now < 2 ^ 56 }
    ensures exact { IfOk result (λ v. v.items ≡ waits_in config.now steps.now) }
    ensures pairs { IfOk result (λ v. length v.items ≡ length steps.now) }
    ensures bound { IfOk result (λ v. All (AreWithin (67 * length steps.now)) v.items) }
{
    let mut result: Vec<Waits, A> = Vec::new(alloc.clone()?);
    let mut recent = Recent::new(&alloc, &alloc);
    config.keeps_limits();
    for step in steps {
        let facts = Facts::of(step);
        let turn = next_turn(config, &recent, &facts);
        recent.keep(&facts, &turn.next.at)?;
        result.push(turn.waits)?;
    }
    Ok(result)
}

/// The needs of a run's steps: what they take of a configuration's parts, and how long they wait for them.
///
/// The work is that of `times`. Stalls grow with the square of the steps: fewer than 2^28 of them, of at most 67 cycles
/// each, keep every sum within 64 bits.
pub fn needs<A: Allocator>(alloc: A, steps: &[Step], config: &Config) -> Result<Needs, AllocError>
    requires few { length steps.now < 2 ^ 28 }
    ensures exact { IfOk result (λ n. AreNeeds config.now (history config.now steps.now) n) }
{
    let facts = facts_of(&alloc, steps)?;
    needs_of(&alloc, &facts, config)
}

/// The needs of the run whose steps have these facts.
pub(crate) fn needs_of<A: Allocator>(
    alloc: &A,
    facts: &[Facts],
    config: &Config,
) -> Result<Needs, AllocError>
    requires run { (steps : List Step) × AreFacts steps facts.now }
    requires few { length facts.now < 2 ^ 28 }
    ensures exact { IfOk result
        (λ n. (steps : List Step) → AreFacts steps facts.now → AreNeeds config.now (history config.now steps) n) }
{
    let mut recent = Recent::new(alloc, alloc);
    let mut needs = Needs::none();
    config.keeps_limits();
    for step in facts {
        let turn = next_turn(config, &recent, step);
        needs.note(step, &turn.waits, &turn.taken, &turn.next.at);
        recent.keep(step, &turn.next.at)?;
    }
    Ok(needs)
}

/// The demands of the run whose steps have these facts. Waits are not added up: only whether there is one is noted.
pub(crate) fn demands_of<A: Allocator>(
    alloc: &A,
    facts: &[Facts],
    config: &Config,
) -> Result<Demands, AllocError>
    requires run { (steps : List Step) × AreFacts steps facts.now }
    requires few { length facts.now < 2 ^ 28 }
    ensures exact { IfOk result (λ d. (steps : List Step) → AreFacts steps facts.now
        → AreDemands config.now (history config.now steps) d) }
{
    let mut recent = Recent::new(alloc, alloc);
    let mut demands = Demands::none();
    config.keeps_limits();
    for step in facts {
        ask_next(&mut recent, &mut demands, config, step)?;
    }
    demands.total = recent.latest.end;
    Ok(demands)
}

/// The cycles that a run takes: the greatest end of its steps; 0 if there are none.
pub fn total(times: &[Times]) -> u64
    ensures { result ≡ total_of times.now }
{
    let mut greatest = 0;
    for at in times {
        greatest = at.end.max(greatest);
    }
    greatest
}
