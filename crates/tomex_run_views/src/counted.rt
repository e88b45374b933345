//! The steps of a run on a configuration, counted.

ghost use Rattle.std.specs.Prelude.{◌≡◌, ◌≤◌, ◌^◌, ◌*◌, ℕ, IfOk, length, map};
ghost use Rattle.tomex_rvexec.specs.declared.step.Step.{Step};
ghost use Rattle.tomex_run_views.specs.Tally.{IsCounted, only_drain, with_drain};
ghost use Rattle.tomex_rvexec.specs.Run.{most_steps};

use crate::drain::drain_of;
use crate::tally::{Sum, Tally, count_by_key};
use std::alloc::{AllocError, Allocator};
use tomex_config::Config;
use tomex_rvexec::Step;
use tomex_timing::evaluate::waits;

/// The steps of a run, counted by key, and the cycles after its last issue.
#[derive(Drop)]
pub struct Counted<A: Allocator> {
    pub tally: Tally<A>,
    pub drain: u64,
}

impl<A: Allocator> Counted<A> {
    /// What the record of the drain has.
    pub fn only_drain(&self) -> Sum
        ensures { result ≡ only_drain self.now.drain }
    {
        let mut sum = Sum::none();
        sum.cycles = self.drain;
        sum
    }

    /// What the record of the run has: all its steps, and the drain.
    pub fn total(&self) -> Sum
        requires drain { self.now.drain ≤ 2 ^ 62 }
        requires cycles { self.now.tally.all.cycles ≤ 2 ^ 62 }
        ensures { result ≡ with_drain self.now.drain self.now.tally.all }
    {
        self.tally.all.with_drain(self.drain)
    }
}

/// Counts the steps of a run on a configuration by their keys, of which there is one for each. The run is timed once.
pub fn count_run<A: Allocator + Clone>(
    alloc: A,
    config: &Config,
    steps: &[Step],
    keys: &[u64],
) -> Result<Counted<A>, AllocError>
    requires few { length steps.now ≤ most_steps }
    requires keys { (key : Step → ℕ) × (keys.now ≡ map key steps.now) }
    ensures counted { IfOk result (λ c. (key : Step → ℕ) → keys.now ≡ map key steps.now
        → IsCounted key config.now steps.now c) }
    ensures drain { IfOk result (λ c. c.drain ≤ 2 ^ 62) }
    ensures cycles { IfOk result (λ c. c.tally.all.cycles ≤ 2 ^ 62) }
{
    config.keeps_limits();
    let waits = waits(alloc.clone()?, steps, config)?;
    let drain = drain_of(config, steps, waits.as_slice());
    let tally = count_by_key(alloc, keys, steps, waits.as_slice())?;
    Ok(Counted { tally, drain })
}
