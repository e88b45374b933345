//! A run that is evaluated several times on a machine, by its blocks: how often a block is
//! evaluated, and how much memory that takes.

ghost use Rattle.std.specs.Prelude.{◌≡◌, ◌≤◌, length, IfOk};

use crate::programs::{IN_TURN, LOOP};
use std::alloc::{AllocError, Global};
use std::test::Fail;
use tomex_config::Config;
use tomex_evaluation::{Evaluator, demands_by_blocks};
use tomex_repeats::Blocks;
use tomex_rvexec::Step;
use tomex_tests_fixtures::machines::one_unit_each;
use tomex_tests_fixtures::runs::{Program, run_of};
use tomex_tests_fixtures::{Attempt, Heap, Try, refusals};
use tomex_timing::Run;

/// A run that is evaluated on a machine, on which it takes these cycles.
#[derive(Clone, Copy)]
struct Evaluating<'a> {
    steps: &'a [Step],
    config: Config,
    cycles: u64,
}

impl<'a> Evaluating<'a> {
    /// The run, in other memory.
    fn run_in(&self, heap: &Heap) -> Result<Run<Heap>, AllocError>
        ensures { IfOk result (λ run. run ≡ self.now.steps.now) }
    {
        let mut steps = Vec::new(heap.clone()?);
        steps.extend_from_slice(self.steps)?;
        Run::new(heap.clone()?, steps)
    }

    /// True if it takes the cycles each time.
    fn is_right(&self, heap: &Heap) -> Result<bool, AllocError> {
        let run = self.run_in(heap)?;
        if run.steps().len() > 2000 {
            return Ok(false);
        }
        let mut evaluator = Evaluator::new(&run);
        let mut is_right = true;
        for _ in 0..4 {
            let demands = evaluator.demands(heap, &self.config)?;
            is_right = is_right && demands.total == self.cycles;
        }
        Ok(is_right)
    }
}

impl<'a> Attempt for Evaluating<'a> {
    fn attempt(&self, heap: Heap) -> Result<Try, AllocError> {
        Ok(self.is_right(&heap).map_or(Try::Refused, Try::right_if))
    }
}

/// A machine whose alu has this latency.
fn machine_of(latency: u8) -> Result<Config, Fail> {
    one_unit_each([1; 6], [latency, 1, 1, 1, 1], 1)
}

/// Latencies of the alu, the cycles of the loop with them, by hand, and the blocks of memory of the run's blocks and of
/// four evaluations by these, with the states that are kept. Each state that isn't kept, or isn't found again, changes
/// that.
static CYCLES: [(u8, u64, u64); 2] = [(1, 2000, 53), (10, 6500, 53)];

#[test]
fn cycles_by_blocks_are_those_by_steps(rt: HostRuntime) -> Result<(), Fail> {
    let run = run_of(rt.alloc(), &LOOP)?;
    for (latency, cycles, memory) in &CYCLES {
        let evaluating = Evaluating {
            steps: run.steps(),
            config: machine_of(*latency)?,
            cycles: *cycles,
        };
        let taken = refusals(rt.alloc(), &evaluating)?;
        assert!(rt; taken == Some(*memory), "{latency} {taken:?}");
    }
    Ok(())
}

/// How many of a run's blocks are evaluated step by step on a machine.
fn evaluated(alloc: Global, program: &Program, config: &Config) -> Result<usize, Fail> {
    let run = run_of(alloc, program)?;
    let blocks = Blocks::of(alloc, run.facts())?;
    Ok(demands_by_blocks(&alloc, &run, &blocks, config)?.evaluated)
}

/// Programs, latencies of the alu, and how many of the program's 500 and 801 blocks are evaluated: each different one
/// once, since the machine is soon in the same state each time.
static EVALUATED: [(Program, u8, usize); 4] = [
    (LOOP, 1, 3),
    (LOOP, 10, 3),
    (IN_TURN, 1, 5),
    (IN_TURN, 10, 5),
];

#[test]
fn few_blocks_are_evaluated(rt: HostRuntime) -> Result<(), Fail> {
    for (program, latency, count) in &EVALUATED {
        let found = evaluated(rt.alloc(), program, &machine_of(*latency)?)?;
        assert!(rt; found == *count, "{latency} {found}");
    }
    Ok(())
}
