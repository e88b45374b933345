//! The state of an evaluation after some steps of a run.

ghost use Rattle.std.specs.Prelude.{◌≡◌, ℕ, ◌+◌, ◌^◌, ◌<◌, ◌≤◌, List, [], length, max, slice_index, IfOk};
ghost use Rattle.tomex_config.specs.Configuration.{Configuration};
ghost use Rattle.tomex_rvexec.specs.declared.step.Step.{Step};
ghost use Rattle.tomex_timing.specs.declared.times.Done.{Done};
ghost use Rattle.tomex_timing.specs.History.{greatest_end};
ghost use Rattle.tomex_timing.specs.Issue.{first_issue};
ghost use Rattle.tomex_timing.specs.Recent.{AreFacts};
ghost use Rattle.tomex_alike.specs.Laws.{history_to};
ghost use Rattle.tomex_states.specs.States.{AreNoted, ShowsState, no_accesses};

use std::alloc::{AllocError, Allocator};
use tomex_config::Config;
use tomex_timing::{Demands, Facts, Recent, ask_next, issue_from};

/// The finishes of accesses, whether or not they are still under way.
#[derive(Clone, Copy, PartialEq, Eq)]
pub struct Window {
    /// Those of the last four accesses, the youngest first; 0 if there are fewer.
    pub finishes: [u64; 4],
    /// The latest finish of the older ones; 0 if there are none.
    pub older: u64,
}

/// What is held of the steps so far, with the finishes of accesses by their order.
#[derive(Drop)]
pub struct State<A: Allocator> {
    pub recent: Recent<A>,
    pub window: Window,
}

impl Window {
    /// The window before the first access.
    pub fn none() -> Window
        ensures { result ≡ no_accesses }
    {
        Window {
            finishes: [0; 4],
            older: 0,
        }
    }

    /// Notes the finish of one more access.
    #[inline(always)]
    pub fn note(&mut self, finish: u64)
        ensures first { slice_index self.new.finishes 0 ≡ finish }
        ensures later { (i : ℕ) → i < 3
            → slice_index self.new.finishes (i + 1) ≡ slice_index self.old.finishes i }
        ensures older { self.new.older ≡ max (slice_index self.old.finishes 3) self.old.older }
        ensures count { length self.new.finishes ≡ 4 }
    {
        let [first, second, third, fourth] = self.finishes;
        self.finishes = [finish, first, second, third];
        self.older = fourth.max(self.older);
    }
}

impl<A: Allocator> State<A> {
    /// The state before the first step, with memory from the two allocators.
    pub fn new(table: A, accesses: A) -> State<A>
        ensures { (config : Configuration) → ShowsState config [] result }
    {
        State {
            recent: Recent::new(table, accesses),
            window: Window::none(),
        }
    }

    /// The first cycle in which the next step may issue, if a station is free.
    pub fn first_issue(&self, config: &Config) -> u64
        requires shown { (h : List Done) × ShowsState config.now h self.now × (greatest_end h < 2 ^ 63) }
        ensures { (h : List Done) → ShowsState config.now h self.now → result ≡ first_issue config.now h }
    {
        issue_from(config, &self.recent.latest)
    }

    /// The greatest end of the steps so far; 0 if there are none.
    pub fn end(&self) -> u64
        ensures { (config : Configuration) (h : List Done) → ShowsState config h self.now
            → result ≡ greatest_end h }
    {
        self.recent.latest.end
    }

    /// Evaluates the steps from `first` on and before `end`, and notes their demands, but not in the total.
    ///
    /// If memory runs out, nothing is known of the state and the demands.
    pub fn evaluate(
        &mut self,
        demands: &mut Demands,
        config: &Config,
        facts: &[Facts],
        first: usize,
        end: usize,
    ) -> Result<(), AllocError>
        requires run { (steps : List Step) × AreFacts steps facts.now
            × ShowsState config.now (history_to config.now steps first) self.old }
        requires some { first ≤ end }
        requires within { end ≤ length facts.now }
        requires few { length facts.now < 2 ^ 56 }
        ensures shown { IfOk result (λ _. (steps : List Step) → AreFacts steps facts.now
            → ShowsState config.now (history_to config.now steps first) self.old
            → ShowsState config.now (history_to config.now steps end) self.new) }
        ensures noted { IfOk result (λ _. (steps : List Step) → AreFacts steps facts.now
            → ShowsState config.now (history_to config.now steps first) self.old
            → AreNoted config.now (history_to config.now steps first) demands.old
            → AreNoted config.now (history_to config.now steps end) demands.new) }
    {
        config.keeps_limits();
        for place in first..end {
            let step = &facts[place];
            let next = ask_next(&mut self.recent, demands, config, step)?;
            if step.bytes.is_some() {
                self.window.note(next.at.finish);
            }
        }
        Ok(())
    }
}
