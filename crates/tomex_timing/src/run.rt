//! A run whose steps are read only once for all the configurations on which it is timed.

ghost use Rattle.std.specs.Prelude.{◌≡◌, ◌<◌, ◌^◌, length, IfOk};
ghost use Rattle.tomex_timing.specs.Demands.{AreDemands};
ghost use Rattle.tomex_timing.specs.Needs.{AreNeeds};
ghost use Rattle.tomex_timing.specs.Recent.{AreFacts};
ghost use Rattle.tomex_timing.specs.Search.{history};

use crate::demands::Demands;
use crate::evaluate::{demands_of, needs_of};
use crate::needs::Needs;
use crate::recent::{Facts, facts_of};
use std::alloc::{AllocError, Allocator, Global};
use std::marker::Model;
use tomex_config::Config;
use tomex_rvexec::Step;

/// The steps of a run, in program order, with the facts of each.
#[derive(Drop)]
pub struct Run<A: Allocator = Global> {
    steps: Vec<Step, A>,
    facts: Vec<Facts, A>,
}

impl<A: Allocator> Model for Run<A> {
    ghost use Rattle.std.specs.Prelude.{List};
    ghost use Rattle.tomex_rvexec.specs.declared.step.Step.{Step};
    ghost use Rattle.tomex_timing.specs.Recent.{AreFacts};

    ghost Value = { List Step };

    ghost view = { λ r. r.steps.items };

    ghost invariant = { λ r. AreFacts r.steps.items r.facts.items };
}

impl<A: Allocator> Run<A> {
    /// The run of these steps. Their facts take 48 bytes a step.
    pub fn new(alloc: A, steps: Vec<Step, A>) -> Result<Run<A>, AllocError>
        ensures { IfOk result (λ r. r ≡ steps.items) }
    {
        let facts = facts_of(alloc, &steps)?;
        Ok(Run { steps, facts })
    }

    /// The steps of the run, in program order.
    pub fn steps(&self) -> &[Step]
        ensures { result.now ≡ self.now }
    {
        self.steps.as_slice()
    }

    /// The facts of its steps, in program order.
    pub fn facts(&self) -> &[Facts]
        ensures { AreFacts self.now result.now }
    {
        self.facts.as_slice()
    }

    /// The needs of the run's steps on a configuration: `evaluate::needs` of these steps.
    pub fn needs(&self, alloc: &A, config: &Config) -> Result<Needs, AllocError>
        requires few { length self.now < 2 ^ 28 }
        ensures exact { IfOk result (λ n. AreNeeds config.now (history config.now self.now) n) }
    {
        needs_of(alloc, &self.facts, config)
    }

    /// The demands of the run's steps on a configuration: of its needs only which parts are waited for, and the peaks.
    /// This takes less work.
    pub fn demands(&self, alloc: &A, config: &Config) -> Result<Demands, AllocError>
        requires few { length self.now < 2 ^ 28 }
        ensures exact { IfOk result (λ d. AreDemands config.now (history config.now self.now) d) }
    {
        demands_of(alloc, &self.facts, config)
    }
}
