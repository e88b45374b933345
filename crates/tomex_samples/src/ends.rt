//! Where the parts end that begin with a run's stretches.

ghost use Rattle.std.specs.Prelude.{◌≡◌, ◌*◌, ◌<◌, ◌≤◌, ◌++◌, ◌∷◌, ◌^◌, ℕ, None, [], IfOk, OnOk, length, slice_index};
ghost use Rattle.tomex_cut.specs.Part.{most_part};
ghost use Rattle.tomex_samples.specs.Ends.{HaveEnded, IsRising, length_at};

use std::alloc::{AllocError, Allocator};
use tomex_cut::MOST_STEPS;

/// The number of steps of the part that begins with a stretch, if it ends after `done` steps of the run.
fn length_at(steps: u32, done: u32, stretch: u32) -> Option<u32>
    requires { stretch * steps ≤ done }
    ensures { result ≡ length_at steps done stretch }
{
    let length = done - stretch * steps;
    if length <= MOST_STEPS {
        Some(length)
    } else {
        None
    }
}

/// For each whole stretch so far the number of steps of the part that begins with it, if that has an end; and those
/// stretches whose part is looked for still, in order.
#[derive(Drop)]
pub(crate) struct Ends<A: Allocator> {
    parts: Vec<Option<u32>, A>,
    waiting: Vec<u32, A>,
}

impl<A: Allocator + Clone> Ends<A> {
    /// No stretches.
    pub(crate) fn new(alloc: A) -> Result<Self, AllocError>
        ensures parts { IfOk result (λ e. e.parts.items ≡ []) }
        ensures waiting { IfOk result (λ e. e.waiting.items ≡ []) }
    {
        Ok(Ends {
            parts: Vec::new(alloc.clone()?),
            waiting: Vec::new(alloc),
        })
    }

    /// One stretch more, whose part has no end yet.
    pub(crate) fn add(&mut self) -> Result<(), AllocError>
        requires { length self.old.parts.items < 2 ^ 32 }
        ensures parts { OnOk result (self.new.parts.items ≡ self.old.parts.items ++ None ∷ []) }
        ensures waiting { OnOk result (self.new.waiting.items
            ≡ self.old.waiting.items ++ length self.old.parts.items ∷ []) }
    {
        let stretch = self.parts.len() as u32;
        self.parts.push(None)?;
        self.waiting.push(stretch)?;
        Ok(())
    }

    /// Ends the parts that began after the last use of a word, before which the run is after `done` steps.
    pub(crate) fn end_since(&mut self, steps: u32, done: u32, last_use: u32)
        requires rising { IsRising self.old.waiting.items }
        requires inside { (t : ℕ) → t < length self.old.waiting.items
            → slice_index self.old.waiting.items t < length self.old.parts.items }
        requires begun { (t : ℕ) → t < length self.old.waiting.items
            → slice_index self.old.waiting.items t * steps ≤ done }
        ensures { HaveEnded steps done last_use self.old.parts.items self.old.waiting.items self.new.parts.items
            self.new.waiting.items }
    {
        for _ended in 0..self.waiting.len() {
            let place = self.waiting.len() - 1;
            let stretch = self.waiting[place];
            if stretch * steps < last_use {
                return;
            }
            self.waiting.truncate(place);
            self.parts[stretch as usize] = length_at(steps, done, stretch);
        }
    }

    /// The numbers of steps.
    pub(crate) fn into_parts(self) -> Vec<Option<u32>, A>
        ensures { result.items ≡ self.parts.items }
    {
        self.parts
    }
}
