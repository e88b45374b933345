//! The stretches of a run, while it goes on.

use crate::counts::{Counts, Entry};
use crate::ends::Ends;
use crate::stretches::Stretches;
use std::alloc::{AllocError, Allocator};
use tomex_image::Window;

/// The whole stretches of a run so far, and the one that is under way, with the number of its steps.
#[derive(Drop)]
pub(crate) struct Tally<A: Allocator> {
    current: u32,
    counts: Counts<A>,
    rows: Vec<Vec<Entry, A>, A>,
    ends: Ends<A>,
}

impl<A: Allocator + Clone> Tally<A> {
    ghost use Rattle.std.specs.Prelude.{◌≡◌, ◌+◌, ◌*◌, ◌/◌, ◌<◌, ◌^◌, ◌++◌, ◌∷◌, ℕ, List, [], None, IfOk, OnOk};
    ghost use Rattle.std.specs.Prelude.{length, replicate};
    ghost use Rattle.tomex_image.specs.Image.{Loaded};
    ghost use Rattle.tomex_samples.specs.declared.counts.Entry.{Entry};
    ghost use Rattle.tomex_samples.specs.Counts.{AreCovered, IsSparse};
    ghost use Rattle.tomex_samples.specs.Ends.{HaveEnded};
    ghost use Rattle.tomex_samples.specs.Tallied.{AreFoundIn, AreTalliedIn};
    ghost use Rattle.tomex_samples.specs.Tally.{IsStep, lists};
    ghost use Rattle.tomex_rvexec.specs.declared.step.Step.{Step};

    /// The stretches of a run before its first step.
    pub(crate) fn new(alloc: &A, window: Window) -> Result<Self, AllocError>
        ensures current { IfOk result (λ t. t.current ≡ 0) }
        ensures counts { IfOk result (λ t. t.counts.numbers.items ≡ replicate (window.size / 4) 0) }
        ensures words { IfOk result (λ t. t.counts.words.items ≡ []) }
        ensures rows { IfOk result (λ t. t.rows.items ≡ []) }
        ensures parts { IfOk result (λ t. t.ends.parts.items ≡ []) }
        ensures waiting { IfOk result (λ t. t.ends.waiting.items ≡ []) }
    {
        Ok(Tally {
            current: 0,
            counts: Counts::new(alloc.clone()?, window)?,
            rows: Vec::new(alloc.clone()?),
            ends: Ends::new(alloc.clone()?)?,
        })
    }

    /// The stretch that is under way is whole now.
    fn close(&mut self, alloc: A) -> Result<(), AllocError>
        requires covered { AreCovered self.old.counts.words.items self.old.counts.numbers.items }
        requires few { length self.old.ends.parts.items < 2 ^ 32 }
        ensures row { OnOk result ((row : List Entry) × IsSparse row self.old.counts.numbers.items
            × (lists self.new.rows.items ≡ lists self.old.rows.items ++ row ∷ [])) }
        ensures counts { OnOk result
            (self.new.counts.numbers.items ≡ replicate (length self.old.counts.numbers.items) 0) }
        ensures words { OnOk result (self.new.counts.words.items ≡ []) }
        ensures parts { OnOk result (self.new.ends.parts.items ≡ self.old.ends.parts.items ++ None ∷ []) }
        ensures waiting { OnOk result (self.new.ends.waiting.items
            ≡ self.old.ends.waiting.items ++ length self.old.ends.parts.items ∷ []) }
        ensures current { OnOk result (self.new.current ≡ 0) }
    {
        let row = self.counts.take(alloc)?;
        self.rows.push(row)?;
        self.ends.add()?;
        self.current = 0;
        Ok(())
    }

    /// The next step is at a word. A stretch of `steps` steps is whole.
    pub(crate) fn add_step(&mut self, alloc: &A, word: usize, steps: u32) -> Result<(), AllocError>
        requires tallied { (i : Loaded) × (n : ℕ) × AreTalliedIn i steps n self.old }
        requires under_way { self.old.current < steps }
        requires inside { word < length self.old.counts.numbers.items }
        requires size { length self.old.counts.numbers.items < 2 ^ 32 }
        requires few { length self.old.ends.parts.items < 2 ^ 32 }
        ensures tallied { OnOk result ((i : Loaded) (n : ℕ) (x : Step) → IsStep i n x → x.pc ≡ i.window.base + 4 * word
            → AreTalliedIn i steps n self.old → AreTalliedIn i steps (n + 1) self.new) }
        ensures found { OnOk result ((i : Loaded) (n : ℕ) → AreTalliedIn i steps n self.old
            → AreFoundIn i steps (n + 1) self.old → AreFoundIn i steps (n + 1) self.new) }
        ensures under_way { OnOk result (self.new.current < steps) }
    {
        self.counts.add(word)?;
        self.current += 1;
        if self.current == steps {
            self.close(alloc.clone()?)?;
        }
        Ok(())
    }

    /// Ends the parts that began after the last use of the word at the next pc, after `done` steps of the run.
    pub(crate) fn end_since(&mut self, steps: u32, done: u32, last_use: u32)
        requires tallied { (i : Loaded) × AreTalliedIn i steps done self.old }
        requires found { (i : Loaded) × (m : ℕ) × AreFoundIn i steps m self.old }
        ensures ends { HaveEnded steps done last_use self.old.ends.parts.items self.old.ends.waiting.items
            self.new.ends.parts.items self.new.ends.waiting.items }
        ensures current { self.new.current ≡ self.old.current }
        ensures counts { self.new.counts ≡ self.old.counts }
        ensures rows { self.new.rows ≡ self.old.rows }
    {
        self.ends.end_since(steps, done, last_use);
    }

    /// All stretches that are whole.
    pub(crate) fn into_stretches(self, steps: u32) -> Stretches<A>
        ensures steps { result.steps ≡ steps }
        ensures words { result.words ≡ length self.counts.numbers.items }
        ensures rows { result.rows.items ≡ self.rows.items }
        ensures parts { result.parts.items ≡ self.ends.parts.items }
    {
        Stretches {
            steps,
            words: self.counts.words_in_all(),
            rows: self.rows,
            parts: self.ends.into_parts(),
        }
    }
}
