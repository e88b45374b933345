//! The cycles of a run after its last issue.

ghost use Rattle.std.specs.Prelude.{◌≡◌, ◌+◌, ◌-◌, ◌^◌, ◌<◌, ◌≤◌, All, length};
ghost use Rattle.tomex_timing.specs.History.{greatest_end, last_issue};
ghost use Rattle.tomex_timing.specs.Needs.{drain, waits_in};
ghost use Rattle.tomex_timing.specs.Search.{history};
ghost use Rattle.tomex_timing.specs.Waiting.{AreWithin};
ghost use Rattle.tomex_run_views.specs.Drain.{cycles_under_way};
ghost use Rattle.tomex_rvexec.specs.Run.{most_steps};

use crate::tally::cycles_of;
use tomex_config::Config;
use tomex_rvexec::Step;
use tomex_timing::Waits;

/// The cycles from a step's issue to its end: its waits, its latency, and a cycle on a bus if it has a result.
fn cycles_under_way(config: &Config, step: &Step, waits: &Waits) -> u64
    requires { AreWithin (2 ^ 35) waits.now }
    ensures value { result ≡ cycles_under_way config.now step.now waits.now }
    ensures bound { result ≤ 2 ^ 40 }
{
    match step.unit() {
        None => 0,
        Some(unit) => {
            let waited = waits.operand + waits.address + waits.memory + waits.unit + waits.bus;
            waited + u64::from(config.latency(unit)) + u64::from(step.dest().is_some())
        }
    }
}

/// The drain of a run whose steps have these waits: its total less its last issue.
pub fn drain_of(config: &Config, steps: &[Step], waits: &[Waits]) -> u64
    requires few { length steps.now ≤ most_steps }
    requires waits { waits.now ≡ waits_in config.now steps.now }
    requires bound { All (AreWithin (2 ^ 35)) waits.now }
    ensures value { result ≡ drain (history config.now steps.now) }
    ensures bound { result ≤ 2 ^ 62 }
{
    config.keeps_limits();
    let mut issue = 0;
    let mut end = 0;
    for (index, step) in steps.iter().enumerate() {
        let waits = &waits[index];
        issue += cycles_of(index, waits);
        end = (issue + cycles_under_way(config, step, waits)).max(end);
    }
    end - issue
}
