//! Where the hook and the place of a prologue are, in words without a mark.

use super::Words;
use std::alloc::Allocator;

/// The words of a hook, and of a place.
const HOOK: usize = 3;

const PLACE: usize = 61;

impl<A: Allocator> Words<A> {
    ghost use Rattle.std.specs.Prelude.{◌≡◌, ◌+◌, ◌*◌, ◌<◌, ◌≤◌, ◌^◌, ◌↔◌, ℕ, IfSome, IfNone, IsTrue, length};
    ghost use Rattle.tomex_cut.specs.Marks.{IsNearestBelow, gap, ReachesAt, ShowFree, StandsAt};
    ghost use Rattle.tomex_cut.specs.Part.{Part};
    ghost use Rattle.tomex_cut.specs.Room.{CanHook, CanPlace, IsHook, IsPlace};

    /// The address of a word.
    fn address_of(&self, word: usize) -> u64
        requires { word ≤ 2 ^ 32 }
        ensures { result ≡ self.now.base + 4 * word }
    {
        u64::from(self.base) + 4 * word as u64
    }

    /// True if a hook can begin at a word.
    fn can_hook(&self, first: usize, pc: u32) -> bool
        requires { first ≤ 2 ^ 32 }
        ensures { IsTrue result ↔ ReachesAt self.now.base self.now.marks.items pc first }
    {
        let third = self.address_of(first) + 8;
        let target = u64::from(pc);
        third <= target + 4096 && target <= third + 4094 && self.are_unmarked(first, HOOK)
    }

    /// How far the third word of a hook is from the pc.
    fn gap_of(&self, first: usize, pc: u32) -> u64
        requires { first ≤ 2 ^ 32 }
        ensures { result ≡ gap self.now.base pc first }
    {
        let third = self.address_of(first) + 8;
        third.abs_diff(u64::from(pc))
    }

    /// The first word of the nearest hook, of two as near the lower.
    fn nearest_hook(&self, pc: u32) -> Option<usize>
        requires { length self.now.marks.items ≤ 2 ^ 32 }
        ensures some { IfSome result
            (λ k. IsNearestBelow self.now.base self.now.marks.items pc (length self.now.marks.items) k) }
        ensures none { IfNone result
            ((k : ℕ) → k < length self.now.marks.items → ReachesAt self.now.base self.now.marks.items pc k → ⊥) }
    {
        let mut nearest = None;
        for first in 0..self.marks.len() {
            if !self.can_hook(first, pc) {
                continue;
            }
            let gap = self.gap_of(first, pc);
            match nearest {
                Some(other) if self.gap_of(other, pc) <= gap => {}
                _ => nearest = Some(first),
            }
        }
        nearest
    }

    /// True if a place beside the hook can begin at a word.
    fn can_place(&self, first: usize, hook: u32) -> bool
        requires { first ≤ 2 ^ 32 }
        ensures { IsTrue result ↔ StandsAt self.now.base self.now.marks.items hook first }
    {
        let (place, hook) = (self.address_of(first), u64::from(hook));
        (place + 244 <= hook || hook + 12 <= place) && self.are_unmarked(first, PLACE)
    }

    /// The first word of the lowest place beside the hook.
    fn lowest_place(&self, hook: u32) -> Option<usize>
        requires { length self.now.marks.items ≤ 2 ^ 32 }
        ensures stands { IfSome result (λ k. StandsAt self.now.base self.now.marks.items hook k) }
        ensures lowest { IfSome result
            (λ k. (j : ℕ) → StandsAt self.now.base self.now.marks.items hook j → k ≤ j) }
        ensures none { IfNone result
            ((k : ℕ) → k < length self.now.marks.items → StandsAt self.now.base self.now.marks.items hook k → ⊥) }
    {
        for first in 0..self.marks.len() {
            if self.can_place(first, hook) {
                return Some(first);
            }
        }
        None
    }

    /// The address of the hook of a part whose first pc this is.
    pub(crate) fn hook(&self, pc: u32) -> Option<u32>
        requires { self.now.base + 4 * length self.now.marks.items ≤ 2 ^ 32 }
        ensures some { IfSome result (λ h. (p : Part) → p.start.pc ≡ pc
            → ShowFree p self.now.base self.now.marks.items → IsHook p h) }
        ensures none { IfNone result ((p : Part) → p.start.pc ≡ pc
            → ShowFree p self.now.base self.now.marks.items → (h : ℕ) → CanHook p h → ⊥) }
    {
        let first = self.nearest_hook(pc)?;
        Some(self.address_of(first) as u32)
    }

    /// The address of the place beside the hook.
    pub(crate) fn place(&self, hook: u32) -> Option<u32>
        requires { self.now.base + 4 * length self.now.marks.items ≤ 2 ^ 32 }
        ensures some { IfSome result (λ a. (p : Part) → ShowFree p self.now.base self.now.marks.items
            → IsPlace p hook a) }
        ensures none { IfNone result ((p : Part) → ShowFree p self.now.base self.now.marks.items
            → (a : ℕ) → CanPlace p hook a → ⊥) }
    {
        let first = self.lowest_place(hook)?;
        Some(self.address_of(first) as u32)
    }
}
