//! The evaluation of a run, block by block.

ghost use Rattle.std.specs.Prelude.{◌≡◌, ℕ, ◌+◌, ◌^◌, ◌<◌, ◌≤◌, [], All, length, IfOk};
ghost use Rattle.std.specs.List.{Contains};
ghost use Rattle.tomex_timing.specs.Demands.{nothing_asked};
ghost use Rattle.tomex_timing.specs.History.{greatest_end};
ghost use Rattle.tomex_alike.specs.Laws.{history_to};
ghost use Rattle.tomex_states.specs.Reuse.{ShowsSome};
ghost use Rattle.tomex_states.specs.States.{ShowsState};
ghost use Rattle.tomex_evaluation.specs.Kept.{IsNumbered, IsUsable};
ghost use Rattle.tomex_evaluation.specs.Known.{IsAt, IsBefore, kept_of};
ghost use Rattle.tomex_evaluation.specs.Places.{IsCut};

use crate::credit::Credit;
use crate::known::Known;
use std::alloc::{AllocError, Allocator};
use tomex_config::Config;
use tomex_repeats::{Block, Blocks};
use tomex_states::State;
use tomex_timing::{Demands, Run};

/// What is evaluated: a run, cut into blocks, on a configuration.
#[derive(Drop)]
pub(crate) struct Task<'r, A: Allocator> {
    pub run: &'r Run<A>,
    pub blocks: &'r Blocks<A>,
    pub config: &'r Config,
}

/// In which state the run is.
#[derive(Clone, Copy)]
pub(crate) enum Standing {
    /// In the evaluator's. It may look like a kept one, which has this number.
    Evaluated(Option<usize>),
    /// In one that looks like the kept one with this number. The evaluator's is of an earlier place.
    Kept(usize),
}

/// An evaluation of a run, between two of its blocks.
#[derive(Drop)]
pub(crate) struct Evaluation<A: Allocator> {
    /// The evaluator's state.
    pub state: State<A>,
    pub standing: Standing,
    /// The first cycle in which the next step may issue.
    pub time: u64,
    /// The demands so far, all but the total.
    pub demands: Demands,
    pub known: Known<A>,
    pub credit: Credit,
}

impl Standing {
    /// The number of the kept state that the run's state looks like, if there is one.
    #[inline(always)]
    fn kept(self) -> Option<usize>
        ensures { result ≡ kept_of self }
    {
        match self {
            Standing::Evaluated(kept) => kept,
            Standing::Kept(number) => Some(number),
        }
    }
}

impl<A: Allocator> Evaluation<A> {
    /// Goes on as long as it is known what follows: a load and an addition a block. The evaluation is before the block
    /// with the number `first` in the row; returns the number of the one before which it is then.
    pub(crate) fn follow(&mut self, task: &Task<'_, A>, first: usize) -> usize
        requires { IsBefore task.now.config.now task.now.run.now task.now.blocks.now first self.old }
        ensures on { first ≤ result }
        ensures before { IsBefore task.now.config.now task.now.run.now task.now.blocks.now result self.new }
    {
        let Some(mut state) = self.standing.kept() else {
            return first;
        };
        let row = task.blocks.blocks();
        let mut time = self.time;
        let mut next = first;
        while let Some(block) = row.get(next) {
            let Some(then) = self.known.after(state, block.number as usize) else {
                break;
            };
            state = then.state;
            time += then.passed;
            next += 1;
        }
        if first < next {
            self.standing = Standing::Kept(state);
            self.time = time;
            self.credit.earn(next - first);
        }
        next
    }

    /// Brings the evaluator to the run's next step, which is at this place.
    fn come_to(&mut self, task: &Task<'_, A>, place: usize) -> Result<(), AllocError>
        requires cut { IsCut task.now.config.now task.now.run.now task.now.blocks.now }
        requires within { place ≤ length task.now.run.now }
        requires at { IsAt task.now.config.now task.now.run.now task.now.blocks.now place self.old }
        ensures at { IfOk result
            (λ _. IsAt task.now.config.now task.now.run.now task.now.blocks.now place self.new) }
        ensures here { IfOk result
            (λ _. ShowsState task.now.config.now (history_to task.now.config.now task.now.run.now place)
            self.new.state) }
    {
        let Standing::Kept(number) = self.standing else {
            return Ok(());
        };
        let kept = &self.known.states[number];
        let by = self.time - kept.first_issue(task.config);
        self.state.copy_from(kept)?;
        self.state
            .move_by(task.config, by, &task.run.facts()[..place])?;
        self.standing = Standing::Evaluated(Some(number));
        Ok(())
    }

    /// The cycles of the run's steps so far, the last of which is before this place.
    pub(crate) fn total(&self, task: &Task<'_, A>) -> u64
        requires { IsBefore task.now.config.now task.now.run.now task.now.blocks.now
            (length task.now.blocks.now.blocks) self.now }
        ensures { result ≡ greatest_end (history_to task.now.config.now task.now.run.now (length task.now.run.now)) }
    {
        match self.standing {
            Standing::Evaluated(_) => self.state.end(),
            Standing::Kept(number) => {
                let kept = &self.known.states[number];
                self.time + kept.end() - kept.first_issue(task.config)
            }
        }
    }
}

impl<A: Allocator + Clone> Evaluation<A> {
    /// Before the first block.
    pub(crate) fn new(alloc: &A, task: &Task<'_, A>) -> Result<Evaluation<A>, AllocError>
        requires { IsCut task.now.config.now task.now.run.now task.now.blocks.now }
        ensures { IfOk result (IsBefore task.now.config.now task.now.run.now task.now.blocks.now 0) }
    {
        let state = State::new(alloc.clone()?, alloc.clone()?);
        let time = state.first_issue(task.config);
        Ok(Evaluation {
            state,
            standing: Standing::Evaluated(None),
            time,
            demands: Demands::none(),
            known: Known::new(alloc, task.blocks.different() as usize)?,
            credit: Credit::new(),
        })
    }

    /// The number of a kept state that the evaluator's looks like. If there is none, the evaluator's is kept, if it can
    /// be and if that pays.
    fn find_or_keep(&mut self, alloc: &A, config: &Config) -> Result<Option<usize>, AllocError>
        requires kept { All (IsUsable config.now) self.old.known.states.items }
        requires shows { ShowsSome config.now self.old.state }
        requires small { self.old.state.recent.latest.end < 2 ^ 63 }
        requires few { self.old.known.different < 2 ^ 32 }
        ensures rest { self.new ≡ record self.old { known = self.new.known; credit = self.new.credit } }
        ensures number { IfOk result (IsNumbered config.now self.old.state self.old.known self.new.known) }
    {
        if !self.credit.pays() || !self.state.can_be_kept(config) {
            return Ok(None);
        }
        if let Some(number) = self.known.find(&self.state, config) {
            return Ok(Some(number));
        }
        if self.known.is_full() {
            self.known.forget();
            self.credit.lose();
            return Ok(None);
        }
        let number = self.known.states.len();
        self.known.keep(alloc, &self.state)?;
        Ok(Some(number))
    }

    /// Evaluates a block, before which the evaluation is.
    pub(crate) fn evaluate(
        &mut self,
        alloc: &A,
        task: &Task<'_, A>,
        block: &Block,
    ) -> Result<(), AllocError>
        requires cut { IsCut task.now.config.now task.now.run.now task.now.blocks.now }
        requires block { Contains task.now.blocks.now.blocks block.now }
        requires at { IsAt task.now.config.now task.now.run.now task.now.blocks.now block.now.first self.old }
        ensures { IfOk result
            (λ _. IsAt task.now.config.now task.now.run.now task.now.blocks.now block.now.end self.new) }
    {
        let first = block.first as usize;
        let end = block.end as usize;
        self.come_to(task, first)?;
        self.state.evaluate(&mut self.demands, task.config, task.run.facts(), first, end)?;
        let time = self.state.first_issue(task.config);
        let to = self.find_or_keep(alloc, task.config)?;
        let from = self.standing.kept();
        let passed = time - self.time;
        self.known.note(from, block.number as usize, to, passed);
        self.standing = Standing::Evaluated(to);
        self.time = time;
        Ok(())
    }
}
