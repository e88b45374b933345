//! The blocks of a run, with memory and without; and more of them than any run has.

use crate::programs::{IN_TURN, LOOP};
use std::alloc::{AllocError, Global};
use std::test::Fail;
use tomex_repeats::Blocks;
use tomex_rvdec::{PoolId, UnitId};
use tomex_tests_fixtures::runs::{Program, run_of};
use tomex_tests_fixtures::{Attempt, Heap, Try, refusals};
use tomex_timing::{Facts, Run};

/// Cuts a run into its blocks: this number of them, and of different ones.
#[derive(Clone, Copy)]
struct Cutting<'a> {
    run: &'a Run,
    blocks: usize,
    different: u32,
}

impl<'a> Attempt for Cutting<'a> {
    fn attempt(&self, heap: Heap) -> Result<Try, AllocError> {
        if self.run.facts().len() > 5000 {
            return Ok(Try::Wrong);
        }
        match Blocks::of(heap, self.run.facts()) {
            Ok(made) => Ok(Try::right_if(
                made.blocks().len() == self.blocks && made.different() == self.different,
            )),
            Err(_) => Ok(Try::Refused),
        }
    }
}

/// Runs, with their blocks and the different ones among them. Of the loop: 499 rounds of two steps, after one step and
/// before another one. Of the loop that goes either way in turn: a round is two blocks, up to its first branch, and one
/// of the two ways; the first block has a step more, and the last is the EBREAK.
static BLOCKS: [(Program, usize, u32); 2] = [(LOOP, 500, 3), (IN_TURN, 801, 5)];

#[test]
fn loops_have_few_different_blocks(rt: HostRuntime) -> Result<(), Fail> {
    for (program, blocks, different) in &BLOCKS {
        let run = run_of(rt.alloc(), program)?;
        let cutting = Cutting {
            run: &run,
            blocks: *blocks,
            different: *different,
        };
        assert!(rt; refusals(rt.alloc(), &cutting)? > Some(0));
    }
    Ok(())
}

/// A register from x1 to x31: the digit of a number in base 31 above this power of it.
fn register(number: usize, power: usize) -> Option<u8> {
    Some((number / power.max(1) % 31) as u8 + 1)
}

/// A product of two registers, and a branch on two others. These are the digits of the number, and so are the product's
/// registers: no two numbers have the same two steps.
fn steps_of(number: usize) -> [Facts; 2] {
    let product = Facts {
        pool: Some(PoolId::Mul),
        unit: Some(UnitId::Mul),
        dest: Some(1),
        j: register(number, 1),
        k: register(number, 31),
        bytes: None,
        is_store: false,
        is_branch: false,
    };
    let branch = Facts {
        pool: Some(PoolId::Bru),
        unit: Some(UnitId::Bru),
        dest: None,
        j: register(number, 31 * 31),
        k: register(number, 31 * 31 * 31),
        is_branch: true,
        ..product
    };
    [product, branch]
}

/// The steps of the first numbers, and again of the first ones of these.
fn many_steps(alloc: Global, different: usize, again: usize) -> Result<Vec<Facts>, AllocError> {
    let mut facts = Vec::new(alloc);
    for number in 0..different {
        facts.extend_from_slice(steps_of(number).as_slice())?;
    }
    for number in 0..again {
        facts.extend_from_slice(steps_of(number).as_slice())?;
    }
    Ok(facts)
}

/// 300,000 different blocks, and the first 50,000 of them again. A search that looks at each block before would take
/// minutes; one that looks at a single place of the table would not find some of them again.
#[test]
fn each_of_many_blocks_is_found_again(rt: HostRuntime) -> Result<(), Fail> {
    let facts = many_steps(rt.alloc(), 300_000, 50_000)?;
    assert!(rt; facts.len() == 700_000);
    let made = Blocks::of(rt.alloc(), facts.as_slice())?;
    assert!(rt; made.blocks().len() == 350_000 && made.different() == 300_000);
    Ok(())
}
