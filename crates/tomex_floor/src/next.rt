//! The floor's times of the next step, given what is kept of the earlier steps.

ghost use Rattle.std.specs.Prelude.{◌≡◌, ◌<◌, ◌≤◌, ◌+◌, ◌^◌, List};
ghost use Rattle.tomex_rvexec.specs.declared.step.Step.{Step};
ghost use Rattle.tomex_timing.specs.declared.times.Done.{Done};
ghost use Rattle.tomex_timing.specs.History.{cycle_of};
ghost use Rattle.tomex_timing.specs.Recurrence.{conflicts};
ghost use Rattle.tomex_floor.specs.Floor.{floor_address, floor_end, floor_issue, floor_start, floor_times};
ghost use Rattle.tomex_floor.specs.Floor.{last_finish};
ghost use Rattle.tomex_config.specs.Configuration.{latency_of};
ghost use Rattle.tomex_timing.specs.Recent.{AreInRange, facts_of};
ghost use Rattle.tomex_floor.specs.Kept.{IsLatest, IsLatestBy};

use crate::latest::Latest;
use tomex_config::Config;
use tomex_timing::{Facts, Times};

/// The issue: later than each older branch's finish and the issue of the `width`-th step before it.
#[inline(always)]
fn issue_of(latest: &Latest, width: usize) -> u64
    requires width { (1 ≤ width) × (width ≤ 4) }
    requires small { IsLatestBy (2 ^ 63) latest.now }
    ensures issue { (h : List Done) → IsLatest h latest.now → result ≡ floor_issue width h }
    ensures by { result ≤ 2 ^ 63 + 1 }
{
    latest.branch.max(latest.issues[width - 1]) + 1
}

/// The address cycle of a load or store.
#[inline(always)]
fn address_of(latest: &Latest, facts: &Facts, issue: u64) -> Option<u64>
    requires range { AreInRange facts.now }
    requires small { IsLatestBy (2 ^ 63) latest.now }
    requires issue { issue ≤ 2 ^ 63 + 1 }
    ensures address { (h : List Done) (s : Step) → facts.now ≡ facts_of s → IsLatest h latest.now
        → result ≡ floor_address h s issue }
    ensures by { cycle_of result ≤ 2 ^ 63 + 2 }
{
    if facts.is_memory() {
        let base = latest.end_of(facts.j);
        Some(issue.max(base).max(latest.address) + 1)
    } else {
        None
    }
}

/// The start of a step that uses a unit, from the latest finish of the accesses that it conflicts with.
#[inline(always)]
fn start_of(latest: &Latest, facts: &Facts, issue: u64, address: u64, conflict: u64) -> u64
    requires range { AreInRange facts.now }
    requires small { IsLatestBy (2 ^ 63) latest.now }
    requires issue { issue ≤ 2 ^ 63 + 1 }
    requires address { address ≤ 2 ^ 63 + 2 }
    requires conflict { conflict ≤ 2 ^ 63 }
    ensures start { (h : List Done) (s : Step) → facts.now ≡ facts_of s → IsLatest h latest.now
        → conflict ≡ last_finish (λ x. conflicts x s) h → result ≡ floor_start h s issue address }
    ensures by { result ≤ 2 ^ 63 + 3 }
{
    let j = latest.end_of(facts.j);
    let k = latest.end_of(facts.k);
    issue.max(address).max(j.max(k)).max(conflict) + 1
}

/// The end, which is a cycle after the finish if the step has a result.
#[inline(always)]
fn end_of(facts: &Facts, finish: u64) -> u64
    requires { finish ≤ 2 ^ 63 + 66 }
    ensures { (s : Step) → facts.now ≡ facts_of s → result ≡ floor_end s finish }
{
    if facts.dest.is_some() {
        finish + 1
    } else {
        finish
    }
}

/// The times of a next step, from the latest finish of the accesses that it conflicts with.
#[inline(always)]
pub(crate) fn next_times(
    config: &Config,
    width: usize,
    latest: &Latest,
    facts: &Facts,
    conflict: u64,
) -> Times
    requires width { (1 ≤ width) × (width ≤ 4) }
    requires range { AreInRange facts.now }
    requires small { IsLatestBy (2 ^ 63) latest.now }
    requires conflict { conflict ≤ 2 ^ 63 }
    ensures { (h : List Done) (s : Step) → facts.now ≡ facts_of s → IsLatest h latest.now
        → conflict ≡ last_finish (λ x. conflicts x s) h
        → result ≡ floor_times (latency_of config.now) width h s }
{
    let issue = issue_of(latest, width);
    let address = address_of(latest, facts, issue);
    let Some(unit) = facts.unit else {
        return Times {
            issue,
            address,
            start: issue,
            finish: issue,
            end: issue,
            station: None,
        };
    };
    let start = start_of(latest, facts, issue, address.unwrap_or(0), conflict);
    let finish = start + u64::from(config.latency(unit)) - 1;
    Times {
        issue,
        address,
        start,
        finish,
        end: end_of(facts, finish),
        station: None,
    }
}
