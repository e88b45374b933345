//! The words of a window, and which of them a part of a run uses.

ghost use Rattle.std.specs.Prelude.{◌≡◌, ◌+◌, ◌*◌, ◌/◌, ◌<◌, ◌≤◌, ◌^◌, ℕ, IfOk, false, length, replicate};

mod room;

use std::alloc::{AllocError, Allocator};
use tomex_image::Window;
use tomex_rvexec::Step;

/// A mark for each word of a window, from its base on.
#[derive(Drop)]
pub(crate) struct Words<A: Allocator> {
    base: u32,
    marks: Vec<bool, A>,
}

impl<A: Allocator> Words<A> {
    ghost use Rattle.std.specs.Prelude.{◌≡◌, ◌⊎◌, ◌+◌, ◌*◌, ◌/◌, ◌<◌, ◌≤◌, ◌^◌, ◌↔◌, ℕ, IfOk, IfSome, IfNone, IsTrue};
    ghost use Rattle.std.specs.Prelude.{false};
    ghost use Rattle.std.specs.Prelude.{length, replicate};
    ghost use Rattle.tomex_cut.specs.Marks.{AreMarked, AreMarkedFor, AreUnmarked, HasByte, mark_of};
    ghost use Rattle.tomex_cut.specs.Part.{uses, word_bytes};
    ghost use Rattle.tomex_rvexec.specs.Results.{is_among};

    /// The words of a window, none of them marked.
    pub(crate) fn new(alloc: A, window: Window) -> Result<Self, AllocError>
        ensures base { IfOk result (λ w. w.base ≡ window.base) }
        ensures marks { IfOk result (λ w. w.marks.items ≡ replicate (window.size / 4) false) }
    {
        let marks = vec![in alloc; false; window.size() as usize / 4]?;
        Ok(Words {
            base: window.base(),
            marks,
        })
    }

    /// The word that has the byte at an address.
    fn word_of(&self, address: u64) -> Option<usize>
        ensures some { IfSome result (λ k. (k < length self.now.marks.items) × HasByte self.now.base k address) }
        ensures none { IfNone result
            ((address < self.now.base) ⊎ (self.now.base + 4 * length self.now.marks.items ≤ address)) }
    {
        let offset = address.checked_sub(u64::from(self.base))?;
        let word = (offset / 4) as usize;
        if word < self.marks.len() {
            Some(word)
        } else {
            None
        }
    }

    /// Marks the word that has the byte at an address, if it is in the window.
    pub(crate) fn mark(&mut self, address: u64)
        ensures base { self.new.base ≡ self.old.base }
        ensures marks { AreMarked self.old.base (λ a. is_among (word_bytes a) address) self.old.marks.items
            self.new.marks.items }
    {
        if let Some(word) = self.word_of(address) {
            self.marks[word] = true;
        }
    }

    /// Marks the words that a step uses.
    pub(crate) fn mark_step(&mut self, step: &Step)
        ensures base { self.new.base ≡ self.old.base }
        ensures marks { AreMarked self.old.base (λ a. uses a step.now) self.old.marks.items self.new.marks.items }
    {
        self.mark(u64::from(step.pc));
        // An access of at most four bytes lies in the words of its first and its last byte.
        if let Some(bytes) = step.bytes() {
            self.mark(bytes.from);
            self.mark(bytes.to - 1);
        }
    }

    /// Marks the word at the end of a part, if it ends before one.
    pub(crate) fn mark_end(&mut self, end: Option<u32>)
        ensures base { self.new.base ≡ self.old.base }
        ensures marks { AreMarkedFor end self.old.base self.old.marks.items self.new.marks.items }
    {
        if let Some(address) = end {
            self.mark(u64::from(address));
        }
    }

    /// True if the word that has the byte at an address is marked; `None` if the address is outside the window.
    pub(crate) fn is_marked(&self, address: u32) -> Option<bool>
        ensures some { IfSome result (λ b. (k : ℕ) × (k < length self.now.marks.items)
            × HasByte self.now.base k address × (b ≡ mark_of self.now.marks.items k)) }
        ensures none { IfNone result
            ((address < self.now.base) ⊎ (self.now.base + 4 * length self.now.marks.items ≤ address)) }
    {
        let word = self.word_of(u64::from(address))?;
        Some(self.marks[word])
    }

    /// True if `count` words from `first` on are in the window, and none of them is marked.
    pub(crate) fn are_unmarked(&self, first: usize, count: usize) -> bool
        requires { first + count < 2 ^ 64 }
        ensures { IsTrue result ↔ AreUnmarked self.now.marks.items count first }
    {
        for k in 0..count {
            match self.marks.get(first + k) {
                Some(false) => {}
                _ => return false,
            }
        }
        first + count <= self.marks.len()
    }
}
