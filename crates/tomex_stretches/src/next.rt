//! The times of the next step on its stretch's floor.

ghost use Rattle.std.specs.Prelude.{◌≡◌, ◌<◌, ◌≤◌, ◌+◌, ◌-◌, ◌^◌, ℕ, List};
ghost use Rattle.tomex_rvexec.specs.declared.step.Step.{Step};
ghost use Rattle.tomex_config.specs.Configuration.{latency_of};
ghost use Rattle.tomex_timing.specs.declared.times.Done.{Done};
ghost use Rattle.tomex_timing.specs.History.{cycle_of};
ghost use Rattle.tomex_timing.specs.Recent.{AreInRange, facts_of};
ghost use Rattle.tomex_timing.specs.Recurrence.{conflicts};
ghost use Rattle.tomex_floor.specs.Floor.{floor_address, floor_end, floor_issue};
ghost use Rattle.tomex_floor.specs.Floor.{floor_start, floor_times, last_finish};
ghost use Rattle.tomex_stretches.specs.Kept.{AreLaterBy, IsLatest, IsLatestBy};

use crate::latest::Latest;
use tomex_config::Config;
use tomex_timing::{Facts, Times};

/// The issue: later than each older branch's finish and the issue of the `width`-th step before it.
pub(crate) fn issue_of(latest: &Latest, width: usize) -> u64
    requires width { (1 ≤ width) × (width ≤ 4) }
    requires by { IsLatestBy latest.now.last latest.now }
    requires small { latest.now.last < 2 ^ 63 }
    ensures issue { (h : List Done) → IsLatest h latest.now
        → result ≡ latest.now.base + floor_issue width h }
    ensures by { result ≤ latest.now.last + 1 }
{
    latest.branch.max(latest.issues[width - 1]).max(latest.base) + 1
}

/// The address cycle of a load or store.
fn address_of(latest: &Latest, facts: &Facts, issue: u64) -> Option<u64>
    requires range { AreInRange facts.now }
    requires by { IsLatestBy latest.now.last latest.now }
    requires small { latest.now.last < 2 ^ 63 }
    requires issue { issue ≤ latest.now.last + 1 }
    ensures address { (h : List Done) (s : Step) (t : ℕ) → facts.now ≡ facts_of s → IsLatest h latest.now
        → issue ≡ latest.now.base + t → 0 < t
        → cycle_of result - latest.now.base ≡ cycle_of (floor_address h s t) }
    ensures by { cycle_of result ≤ latest.now.last + 2 }
{
    if facts.is_memory() {
        let base = latest.end_of(facts.j);
        Some(issue.max(base).max(latest.address) + 1)
    } else {
        None
    }
}

/// The start of a step that uses a unit, from the latest finish of the accesses that it conflicts with.
fn start_of(latest: &Latest, facts: &Facts, issue: u64, address: u64, conflict: u64) -> u64
    requires range { AreInRange facts.now }
    requires by { IsLatestBy latest.now.last latest.now }
    requires small { latest.now.last < 2 ^ 63 }
    requires issue { issue ≤ latest.now.last + 1 }
    requires address { address ≤ latest.now.last + 2 }
    requires conflict { conflict ≤ latest.now.last }
    ensures start { (h : List Done) (s : Step) (t a : ℕ) → facts.now ≡ facts_of s → IsLatest h latest.now
        → conflict - latest.now.base ≡ last_finish (λ x. conflicts x s) h → issue ≡ latest.now.base + t → 0 < t
        → address - latest.now.base ≡ a → result ≡ latest.now.base + floor_start h s t a }
    ensures low { (issue < result) × (address < result) }
    ensures by { result ≤ latest.now.last + 3 }
{
    let j = latest.end_of(facts.j);
    let k = latest.end_of(facts.k);
    issue.max(address).max(j.max(k)).max(conflict) + 1
}

/// The end, which is a cycle after the finish if the step has a result.
fn end_of(facts: &Facts, finish: u64) -> u64
    requires { finish < 2 ^ 64 - 1 }
    ensures end { (s : Step) (base t : ℕ) → facts.now ≡ facts_of s → finish ≡ base + t
        → result ≡ base + floor_end s t }
    ensures by { (finish ≤ result) × (result ≤ finish + 1) }
{
    if facts.dest.is_some() {
        finish + 1
    } else {
        finish
    }
}

/// The times of a next step, from the latest finish of the accesses that it conflicts with.
pub(crate) fn next_times(
    config: &Config,
    width: usize,
    latest: &Latest,
    facts: &Facts,
    conflict: u64,
) -> Times
    requires width { (1 ≤ width) × (width ≤ 4) }
    requires range { AreInRange facts.now }
    requires by { IsLatestBy latest.now.last latest.now }
    requires small { latest.now.last < 2 ^ 63 }
    requires conflict { conflict ≤ latest.now.last }
    ensures times { (h : List Done) (s : Step) → facts.now ≡ facts_of s → IsLatest h latest.now
        → conflict - latest.now.base ≡ last_finish (λ x. conflicts x s) h
        → AreLaterBy latest.now.base result (floor_times (latency_of config.now) width h s) }
    ensures order { (result.issue ≤ result.end) × (result.finish ≤ result.end) }
    ensures by { (result.end ≤ latest.now.last + 67) × (cycle_of result.address ≤ latest.now.last + 2) }
{
    config.keeps_limits();
    let issue = issue_of(latest, width);
    let Some(unit) = facts.unit else {
        return Times {
            issue,
            address: address_of(latest, facts, issue),
            start: issue,
            finish: issue,
            end: issue,
            station: None,
        };
    };
    let address = address_of(latest, facts, issue);
    let start = start_of(latest, facts, issue, address.unwrap_or(0), conflict);
    let finish = start + u64::from(config.latency(unit)) - 1;
    Times {
        issue,
        address,
        start,
        finish,
        end: end_of(facts, finish),
        station: None,
    }
}
