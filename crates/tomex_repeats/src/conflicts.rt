//! Which of the accesses before it each step conflicts with.

ghost use Rattle.std.specs.Prelude.{◌≡◌, ◌+◌, ◌-◌, ◌^◌, ◌<◌, ◌≤◌, length, reverse, take, All, IfOk, []};
ghost use Rattle.tomex_timing.specs.declared.recent.Facts.{Facts};
ghost use Rattle.tomex_repeats.specs.Blocks.{do_conflict};
ghost use Rattle.tomex_repeats.specs.Masks.{AreMasks, ArePlaces, facts_at, mask_of};

use std::alloc::{AllocError, Allocator};
use tomex_timing::Facts;

/// The number of accesses before a block with which its steps are compared.
const WINDOW: usize = 4;

/// The accesses of a run so far, and what each of its steps so far conflicts with.
#[derive(Drop)]
pub(crate) struct Conflicts<A: Allocator> {
    /// The numbers of the accesses' steps.
    pub accesses: Vec<u32, A>,
    /// A bit for each access in the step's window that it conflicts with, the youngest one's the lowest.
    pub masks: Vec<u64, A>,
}

/// True if an access and a later step share a byte, and one of the two is a store.
#[inline(always)]
fn do_conflict(access: &Facts, step: &Facts) -> bool
    ensures { result ≡ do_conflict access.now step.now }
{
    match (access.bytes, step.bytes) {
        (Some(older), Some(bytes)) => {
            older.shares_byte(bytes) && (access.is_store || step.is_store)
        }
        _ => false,
    }
}

/// A bit for each of some accesses that a step conflicts with, the youngest one's the lowest.
fn mask_of(facts: &[Facts], accesses: &[u32], step: &Facts) -> u64
    requires there { All (λ p. p < length facts.now) accesses.now }
    requires few { length accesses.now < 64 }
    ensures { (z : Facts) → result ≡ mask_of (reverse (facts_at facts.now accesses.now z)) step.now }
{
    if step.bytes.is_none() {
        return 0;
    }
    let mut mask = 0;
    for place in accesses {
        mask = 2 * mask + u64::from(do_conflict(&facts[*place as usize], step));
    }
    mask
}

impl<A: Allocator> Conflicts<A> {
    /// The state before the first step, with memory from the two allocators.
    pub fn new(accesses: A, masks: A) -> Conflicts<A>
        ensures accesses { result.accesses.items ≡ [] }
        ensures masks { result.masks.items ≡ [] }
    {
        Conflicts {
            accesses: Vec::new(accesses),
            masks: Vec::new(masks),
        }
    }

    /// Notes the steps of the next block, from `first` on and before `end`.
    pub fn note(&mut self, facts: &[Facts], first: usize, end: usize) -> Result<(), AllocError>
        requires some { first < end }
        requires long { end ≤ first + 60 }
        requires within { end ≤ length facts.now }
        requires short { length facts.now < 2 ^ 28 }
        requires places { ArePlaces facts.now self.old.accesses.items first }
        requires masks { length self.old.masks.items ≡ first }
        ensures places { IfOk result (λ _. ArePlaces facts.now self.new.accesses.items end) }
        ensures masks { IfOk result (λ _. AreMasks facts.now self.new.masks.items first end) }
        ensures known { IfOk result (λ _. length self.new.masks.items ≡ end) }
        ensures kept { IfOk result (λ _. take first self.new.masks.items ≡ self.old.masks.items) }
    {
        let from = self.accesses.len().saturating_sub(WINDOW);
        for place in first..end {
            let step = &facts[place];
            let mask = mask_of(facts, &self.accesses[from..], step);
            self.masks.push(mask)?;
            if step.bytes.is_some() {
                self.accesses.push(place as u32)?;
            }
        }
        Ok(())
    }
}
