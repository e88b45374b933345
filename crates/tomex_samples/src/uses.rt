//! Which step of a run used each word of a window last.

ghost use Rattle.std.specs.Prelude.{◌≡◌, ◌⊎◌, ◌+◌, ◌*◌, ◌/◌, ◌<◌, ◌≤◌, ℕ, IfNone, IfOk, IfSome, length, replicate};

use std::alloc::{AllocError, Allocator};
use tomex_image::Window;
use tomex_rvexec::Step;

/// For each word of a window, from its base on, the number of the step that used it last; 0 if none has.
#[derive(Drop)]
pub(crate) struct LastUses<A: Allocator> {
    base: u32,
    numbers: Vec<u32, A>,
}

impl<A: Allocator + Clone> LastUses<A> {
    ghost use Rattle.std.specs.Prelude.{◌≡◌, ◌⊎◌, ◌+◌, ◌*◌, ◌/◌, ◌<◌, ◌≤◌, ℕ, IfNone, IfOk, IfSome, length};
    ghost use Rattle.std.specs.Prelude.{replicate, slice_index};
    ghost use Rattle.tomex_cut.specs.Marks.{HasByte};
    ghost use Rattle.tomex_cut.specs.Part.{uses, word_bytes};
    ghost use Rattle.tomex_samples.specs.Uses.{AreNumbered};
    ghost use Rattle.tomex_rvexec.specs.Results.{is_among};

    /// The words of a window before the first step.
    pub(crate) fn new(alloc: &A, window: Window) -> Result<Self, AllocError>
        ensures base { IfOk result (λ u. u.base ≡ window.base) }
        ensures numbers { IfOk result (λ u. u.numbers.items ≡ replicate (window.size / 4) 0) }
    {
        let numbers = vec![in alloc.clone()?; 0; window.size() as usize / 4]?;
        Ok(LastUses {
            base: window.base(),
            numbers,
        })
    }

    /// The word that has the byte at an address.
    pub(crate) fn word_of(&self, address: u64) -> Option<usize>
        ensures some { IfSome result (λ k. (k < length self.now.numbers.items) × HasByte self.now.base k address) }
        ensures none { IfNone result
            ((address < self.now.base) ⊎ (self.now.base + 4 * length self.now.numbers.items ≤ address)) }
    {
        let offset = address.checked_sub(u64::from(self.base))?;
        let word = (offset / 4) as usize;
        if word < self.numbers.len() {
            Some(word)
        } else {
            None
        }
    }

    /// Notes that the step of this number uses the word that has the byte at an address, if it is in the window.
    fn mark(&mut self, address: u64, number: u32)
        ensures base { self.new.base ≡ self.old.base }
        ensures numbers { AreNumbered self.old.base (λ a. is_among (word_bytes a) address) number
            self.old.numbers.items self.new.numbers.items }
    {
        if let Some(word) = self.word_of(address) {
            self.numbers[word] = number;
        }
    }

    /// Notes that the step of this number uses its words.
    pub(crate) fn mark_step(&mut self, step: &Step, number: u32)
        ensures base { self.new.base ≡ self.old.base }
        ensures numbers { AreNumbered self.old.base (λ a. uses a step.now) number self.old.numbers.items
            self.new.numbers.items }
    {
        self.mark(u64::from(step.pc), number);
        // An access of at most four bytes lies in the words of its first and its last byte.
        if let Some(bytes) = step.bytes() {
            self.mark(bytes.from, number);
            self.mark(bytes.to - 1, number);
        }
    }

    /// The number of the step that used the word at a place last.
    pub(crate) fn last_use(&self, word: usize) -> u32
        requires { word < length self.now.numbers.items }
        ensures { result ≡ slice_index self.now.numbers.items word }
    {
        self.numbers[word]
    }
}
