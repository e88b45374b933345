//! How many steps of a stretch are at each word.

ghost use Rattle.std.specs.Prelude.{◌≡◌, ◌+◌, ◌/◌, ◌<◌, ◌^◌, ℕ, [], IfOk, OnOk, length, replicate, slice_index};
ghost use Rattle.std.specs.Prelude.{slice_set};
ghost use Rattle.tomex_samples.specs.Counts.{AreCovered, IsSparse};

use std::alloc::{AllocError, Allocator};
use tomex_image::Window;

/// A word of the window, and the number of a stretch's steps that are at it.
#[derive(Clone, Copy, PartialEq, Eq)]
pub(crate) struct Entry {
    pub(crate) word: u32,
    pub(crate) count: u32,
}

/// The numbers of the steps of a stretch that is under way, and the words that have some.
#[derive(Drop)]
pub(crate) struct Counts<A: Allocator> {
    numbers: Vec<u32, A>,
    words: Vec<u32, A>,
}

impl<A: Allocator + Clone> Counts<A> {
    /// No steps at any word of a window.
    pub(crate) fn new(alloc: A, window: Window) -> Result<Self, AllocError>
        ensures numbers { IfOk result (λ c. c.numbers.items ≡ replicate (window.size / 4) 0) }
        ensures words { IfOk result (λ c. c.words.items ≡ []) }
    {
        let numbers = vec![in alloc.clone()?; 0; window.size() as usize / 4]?;
        Ok(Counts {
            numbers,
            words: Vec::new(alloc),
        })
    }

    /// One step more at a word.
    pub(crate) fn add(&mut self, word: usize) -> Result<(), AllocError>
        requires inside { word < length self.old.numbers.items }
        requires few { slice_index self.old.numbers.items word + 1 < 2 ^ 32 }
        requires size { length self.old.numbers.items < 2 ^ 32 }
        requires covered { AreCovered self.old.words.items self.old.numbers.items }
        ensures numbers { OnOk result (self.new.numbers.items
            ≡ slice_set self.old.numbers.items word (slice_index self.old.numbers.items word + 1)) }
        ensures covered { OnOk result (AreCovered self.new.words.items self.new.numbers.items) }
    {
        if self.numbers[word] == 0 {
            self.words.push(word as u32)?;
        }
        self.numbers[word] += 1;
        Ok(())
    }

    /// The numbers of the stretch that ends here, without zeros; then there are none.
    pub(crate) fn take(&mut self, alloc: A) -> Result<Vec<Entry, A>, AllocError>
        requires covered { AreCovered self.old.words.items self.old.numbers.items }
        ensures row { IfOk result (λ row. IsSparse row.items self.old.numbers.items) }
        ensures none { OnOk result (self.new.numbers.items ≡ replicate (length self.old.numbers.items) 0) }
        ensures words { OnOk result (self.new.words.items ≡ []) }
    {
        let mut row = Vec::with_capacity(alloc, self.words.len())?;
        for k in 0..self.words.len() {
            let word = self.words[k];
            row.push(Entry {
                word,
                count: self.numbers[word as usize],
            })?;
            self.numbers[word as usize] = 0;
        }
        self.words.clear();
        Ok(row)
    }

    /// The number of words of the window.
    pub(crate) fn words_in_all(&self) -> usize
        ensures { result ≡ length self.now.numbers.items }
    {
        self.numbers.len()
    }
}
