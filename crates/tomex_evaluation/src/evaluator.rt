//! A run that is evaluated on one configuration after another.

ghost use Rattle.std.specs.Prelude.{◌≡◌, ◌^◌, ◌<◌, length, map, IfOk};
ghost use Rattle.tomex_timing.specs.Demands.{AreDemands};
ghost use Rattle.tomex_timing.specs.Search.{history};

use crate::demands::demands_by_blocks;
use std::alloc::{AllocError, Allocator};
use std::marker::Model;
use tomex_config::Config;
use tomex_repeats::Blocks;
use tomex_timing::{Demands, Run};

/// Evaluates a run on one configuration after another, by its blocks if they come again. To cut it takes about as long
/// as one evaluation step by step.
#[derive(Drop)]
pub struct Evaluator<'s, A: Allocator> {
    run: &'s Run<A>,
    /// Its blocks, from the first evaluation on.
    blocks: Option<Blocks<A>>,
}

impl<'s, A: Allocator> Model for Evaluator<'s, A> {
    ghost use Rattle.std.specs.Prelude.{List, IfSome, map};
    ghost use Rattle.tomex_rvexec.specs.declared.step.Step.{Step};
    ghost use Rattle.tomex_timing.specs.Recent.{facts_of};
    ghost use Rattle.tomex_repeats.specs.Blocks.{AreBlocks};

    ghost Value = { List Step };

    ghost view = { λ e. e.run.now };

    ghost invariant = { λ e. IfSome e.blocks (λ b. AreBlocks (map facts_of e.run.now) b) };
}

impl<'s, A: Allocator> Evaluator<'s, A> {
    /// Nothing is evaluated yet. Allocates nothing.
    pub fn new(run: &'s Run<A>) -> Evaluator<'s, A>
        ensures { result ≡ run.now }
    {
        Evaluator { run, blocks: None }
    }
}

/// True if there are at least twice as many blocks as different ones.
fn come_again<A: Allocator>(blocks: &Blocks<A>) -> bool {
    blocks.different() as usize <= blocks.blocks().len() / 2
}

impl<'s, A: Allocator + Clone> Evaluator<'s, A> {
    /// Cuts the run into blocks, unless it is cut already.
    fn cut(&mut self, alloc: &A) -> Result<(), AllocError>
        requires { length self.old < 2 ^ 28 }
        ensures { self.new ≡ self.old }
    {
        if self.blocks.is_none() {
            self.blocks = Some(Blocks::of(alloc.clone()?, self.run.facts())?);
        }
        Ok(())
    }

    /// The demands of the run on a configuration: those of `Run::demands`.
    pub fn demands(&mut self, alloc: &A, config: &Config) -> Result<Demands, AllocError>
        requires few { length self.old < 2 ^ 28 }
        ensures same { self.new ≡ self.old }
        ensures exact { IfOk result (λ d. AreDemands config.now (history config.now self.old) d) }
    {
        self.cut(alloc)?;
        if let Some(blocks) = &self.blocks {
            if come_again(blocks) {
                return Ok(demands_by_blocks(alloc, self.run, blocks, config)?.demands);
            }
        }
        self.run.demands(alloc, config)
    }
}
