//! The demands of a run, by its blocks.

ghost use Rattle.std.specs.Prelude.{◌≡◌, ◌^◌, ◌<◌, ◌≤◌, length, map, IfOk};
ghost use Rattle.tomex_timing.specs.Demands.{AreDemands};
ghost use Rattle.tomex_timing.specs.Recent.{facts_of};
ghost use Rattle.tomex_timing.specs.Search.{history};
ghost use Rattle.tomex_repeats.specs.Blocks.{AreBlocks};

use crate::evaluation::{Evaluation, Task};
use std::alloc::{AllocError, Allocator};
use tomex_config::Config;
use tomex_repeats::Blocks;
use tomex_timing::{Demands, Run};

/// The demands of a run, and how many of its blocks were evaluated step by step. What follows the others was known.
#[derive(Clone, Copy)]
pub struct ByBlocks {
    pub demands: Demands,
    pub evaluated: usize,
}

/// The demands of a run on a configuration: those of `Run::demands`, in less time if blocks come again.
///
/// At most 32 states are kept at once, of some 1.5 kilobytes each, and an entry of 8 bytes for each of them and each
/// different block.
pub fn demands_by_blocks<A: Allocator + Clone>(
    alloc: &A,
    run: &Run<A>,
    blocks: &Blocks<A>,
    config: &Config,
) -> Result<ByBlocks, AllocError>
    requires few { length run.now < 2 ^ 28 }
    requires blocks { AreBlocks (map facts_of run.now) blocks.now }
    ensures demands { IfOk result (λ r. AreDemands config.now (history config.now run.now) r.demands) }
    ensures evaluated { IfOk result (λ r. r.evaluated ≤ length blocks.now.blocks) }
{
    config.keeps_limits();
    let _facts = run.facts();
    let task = Task {
        run,
        blocks,
        config,
    };
    let mut evaluation = Evaluation::new(alloc, &task)?;
    let row = blocks.blocks();
    let (mut next, mut evaluated) = (0, 0);
    while next < row.len() {
        evaluation.evaluate(alloc, &task, &row[next])?;
        evaluated += 1;
        next = evaluation.follow(&task, next + 1);
    }
    let mut demands = evaluation.demands;
    demands.total = evaluation.total(&task);
    Ok(ByBlocks { demands, evaluated })
}
