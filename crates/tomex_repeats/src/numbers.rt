//! The numbers of blocks, by a table with open addresses.

ghost use Rattle.std.specs.Prelude.{◌≡◌, ◌+◌, ◌*◌, ◌^◌, ◌<◌, ◌≤◌, length, All, IfOk, IsTrue, []};
ghost use Rattle.tomex_repeats.specs.Blocks.{AreLike, AreSameBlocks};
ghost use Rattle.tomex_repeats.specs.Masks.{AreFirsts, AreFirstsAfter, AreMasks, IsFound, IsNoted, IsNumbered, IsTable};

use crate::blocks::Block;
use crate::cut::LONGEST;
use std::alloc::{AllocError, Allocator};
use tomex_timing::Facts;

/// Where a block is found in the table.
#[derive(Clone, Copy)]
pub(crate) enum Found {
    /// It has this number.
    Known(u32),
    /// It has none yet, and may get one at this place of the table.
    Free(usize),
}

/// The different blocks so far.
#[derive(Drop)]
pub(crate) struct Numbers<A: Allocator> {
    /// Numbers, by the checksums of their blocks.
    slots: Vec<Option<u32>, A>,
    /// The first block of each number.
    firsts: Vec<Block, A>,
}

/// True if two steps are the same except for the bytes that they touch.
#[inline(always)]
fn are_like(a: &Facts, b: &Facts) -> bool
    ensures { IsTrue result → AreLike a.now b.now }
{
    if a.pool != b.pool || a.unit != b.unit {
        return false;
    }
    if a.dest != b.dest || a.j != b.j || a.k != b.k {
        return false;
    }
    if a.bytes.is_some() != b.bytes.is_some() || a.is_store != b.is_store {
        return false;
    }
    a.is_branch == b.is_branch
}

/// True if two blocks are the same.
fn are_same(facts: &[Facts], masks: &[u64], a: &Block, b: &Block) -> bool
    requires a { IsNoted facts.now masks.now a.now }
    requires b { IsNoted facts.now masks.now b.now }
    ensures { IsTrue result → AreSameBlocks facts.now a.now b.now }
{
    let length = a.end - a.first;
    if b.end - b.first != length {
        return false;
    }
    for step in 0..length {
        let p = (a.first + step) as usize;
        let q = (b.first + step) as usize;
        if masks[p] != masks[q] || !are_like(&facts[p], &facts[q]) {
            return false;
        }
    }
    true
}

/// Another checksum, with one more word.
#[inline(always)]
fn mixed(sum: u64, word: u64) -> u64 {
    let product = (sum ^ word).wrapping_mul(0x9e37_79b9_7f4a_7c15);
    product ^ (product >> 29)
}

/// The parts of a step's facts in one word, except for its bytes.
#[inline(always)]
fn word_of(step: &Facts) -> u64 {
    let pool = step.pool.map_or(6, |pool| pool.place() as u64);
    let dest = step.dest.map_or(32, u64::from);
    let j = step.j.map_or(32, u64::from);
    let k = step.k.map_or(32, u64::from);
    pool ^ (dest << 8) ^ (j << 16) ^ (k << 24)
}

/// A checksum of a block, by which it is looked for. Any number would do.
fn checksum(facts: &[Facts], masks: &[u64]) -> u64 {
    let mut sum = 0;
    for (step, mask) in facts.iter().zip(masks) {
        sum = mixed(mixed(sum, word_of(step)), *mask);
    }
    sum
}

/// Looks for a block's number from the place of its checksum on.
fn find(
    slots: &[Option<u32>],
    firsts: &[Block],
    facts: &[Facts],
    masks: &[u64],
    block: &Block,
    sum: u64,
) -> Found
    requires some { 0 < length slots.now }
    requires few { length slots.now < 2 ^ 32 }
    requires table { IsTable slots.now firsts.now }
    requires firsts { All (IsNoted facts.now masks.now) firsts.now }
    requires block { IsNoted facts.now masks.now block.now }
    ensures { IsFound facts.now slots.now firsts.now block.now result }
{
    let start = (sum % slots.len() as u64) as usize;
    for step in 0..slots.len() {
        let place = (start + step) % slots.len();
        let Some(number) = slots[place] else {
            return Found::Free(place);
        };
        if are_same(facts, masks, &firsts[number as usize], block) {
            return Found::Known(number);
        }
    }
    Found::Free(start)
}

impl<A: Allocator> Numbers<A> {
    /// The state before the first block, with memory from the two allocators: a table with at least twice as many
    /// places as the run has blocks.
    pub fn new(slots: A, firsts: A, facts: &[Facts]) -> Result<Numbers<A>, AllocError>
        requires few { length facts.now < 2 ^ 28 }
        ensures state { IfOk result (λ r. AreFirsts facts.now [] r.slots.items r.firsts.items) }
        ensures none { IfOk result (λ r. r.firsts.items ≡ []) }
    {
        let branches = facts.iter().filter(|step| step.is_branch).count();
        let places = 2 * (branches + facts.len() / LONGEST + 1);
        Ok(Numbers {
            slots: vec![in slots; None; places]?,
            firsts: Vec::new(firsts),
        })
    }

    /// The number of different blocks so far.
    pub fn count(&self) -> u32
        requires { length self.now.firsts.items < 2 ^ 28 }
        ensures { result ≡ length self.now.firsts.items }
    {
        self.firsts.len() as u32
    }

    /// The block of the steps from `first` on and before `end`, with its number.
    pub fn numbered(
        &mut self,
        facts: &[Facts],
        masks: &[u64],
        first: usize,
        end: usize,
    ) -> Result<Block, AllocError>
        requires some { first < end }
        requires long { end ≤ first + 60 }
        requires within { end ≤ length facts.now }
        requires known { end ≤ length masks.now }
        requires short { length facts.now < 2 ^ 28 }
        requires masks { AreMasks facts.now masks.now first end }
        requires state { AreFirsts facts.now masks.now self.old.slots.items self.old.firsts.items }
        requires few { length self.old.firsts.items ≤ first }
        ensures place { IfOk result (λ b. (b.first ≡ first) × (b.end ≡ end)) }
        ensures number { IfOk result (λ b. IsNumbered facts.now self.new.firsts.items b.number b) }
        ensures state { IfOk result (λ _. AreFirsts facts.now masks.now self.new.slots.items self.new.firsts.items) }
        ensures firsts { IfOk result (λ b. AreFirstsAfter b self.old.firsts.items self.new.firsts.items) }
    {
        let new = Block {
            first: first as u32,
            end: end as u32,
            number: self.count(),
        };
        let sum = checksum(&facts[first..end], &masks[first..end]);
        match find(&self.slots, &self.firsts, facts, masks, &new, sum) {
            Found::Known(number) => Ok(Block { number, ..new }),
            Found::Free(place) => {
                self.firsts.push(new)?;
                self.slots[place] = Some(new.number);
                Ok(new)
            }
        }
    }
}
