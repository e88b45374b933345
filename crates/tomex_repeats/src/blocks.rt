//! The blocks of a run.

ghost use Rattle.std.specs.Prelude.{◌≡◌, ◌<◌, ◌^◌, length, IfOk};
ghost use Rattle.tomex_repeats.specs.Blocks.{AreBlocks};

use crate::conflicts::Conflicts;
use crate::cut::end_of_block;
use crate::numbers::Numbers;
use std::alloc::{AllocError, Allocator, Global};
use std::marker::Model;
use tomex_timing::Facts;

/// A block: the steps of a run from the step with number `first` on, counted from 0, and before the one with number
/// `end`.
#[derive(Clone, Copy, PartialEq, Eq)]
pub struct Block {
    pub first: u32,
    pub end: u32,
    /// Two blocks of one number are the same to the recurrence: their steps have the same facts except for the bytes of
    /// accesses, and conflict with the same ones of the accesses before them.
    pub number: u32,
}

/// The blocks of a run, in program order. Each goes up to and with the next conditional branch or JALR, and has at most
/// 60 steps.
#[derive(Drop)]
pub struct Blocks<A: Allocator = Global> {
    blocks: Vec<Block, A>,
    different: u32,
}

impl<A: Allocator> Model for Blocks<A> {
    ghost use Rattle.tomex_repeats.specs.Blocks.{Blocks};

    ghost Value = { Blocks };

    ghost view = { λ b. record { blocks = b.blocks.items; different = b.different } };
}

impl<A: Allocator + Clone> Blocks<A> {
    /// The blocks of the run whose steps have these facts.
    ///
    /// The work is linear in the steps. Each block takes 12 bytes. While blocks are made, 12 bytes a step and up to 28
    /// bytes a block are used besides.
    pub fn of(alloc: A, facts: &[Facts]) -> Result<Blocks<A>, AllocError>
        requires few { length facts.now < 2 ^ 28 }
        ensures { IfOk result (λ r. AreBlocks facts.now r) }
    {
        let mut conflicts = Conflicts::new(&alloc, &alloc);
        let mut numbers = Numbers::new(&alloc, &alloc, facts)?;
        let mut made = Vec::new(alloc.clone()?);
        let mut first = 0;
        while first < facts.len() {
            let end = end_of_block(facts, first);
            conflicts.note(facts, first, end)?;
            let block = numbers.numbered(facts, &conflicts.masks, first, end)?;
            made.push(block)?;
            first = end;
        }
        let different = numbers.count();
        Ok(Blocks {
            blocks: made,
            different,
        })
    }
}

impl<A: Allocator> Blocks<A> {
    /// The blocks, in program order: each begins where the one before it ends.
    pub fn blocks(&self) -> &[Block]
        ensures { result.now ≡ self.now.blocks }
    {
        self.blocks.as_slice()
    }

    /// The number of different blocks. Each block's number is below it.
    pub fn different(&self) -> u32
        ensures { result ≡ self.now.different }
    {
        self.different
    }
}
