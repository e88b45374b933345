//! The time of the last access to each byte of memory.

ghost use Rattle.std.specs.Prelude.{◌≡◌, ◌≢◌, ◌<◌, ◌+◌, ◌^◌, ◌&&◌, ℕ, nat_le, nat_lt, if◌then◌else◌, List, IfOk, max};
ghost use Rattle.std.specs.Prelude.{slice_index};
ghost use Rattle.std.specs.HashMap.{IsEmpty};
ghost use Rattle.tomex_rvdec.specs.declared.pool.UnitId.{UnitId};
ghost use Rattle.tomex_rvexec.specs.declared.step.Step.{Step};
ghost use Rattle.tomex_timing.specs.declared.times.Done.{Done};
ghost use Rattle.tomex_timing.specs.Recurrence.{conflicts};
ghost use Rattle.tomex_floor.specs.Floor.{last_finish};
ghost use Rattle.tomex_timing.specs.Recent.{AreInRange, facts_of};
ghost use Rattle.tomex_floor.specs.Kept.{AreAfter, AreTouched, finish_of};
ghost use Rattle.tomex_floor.specs.Kept.{history_after, no_finishes, no_word, raised, shares_some, touched_after};
ghost use Rattle.tomex_floor.specs.Kept.{touched_at, touched_by, touched_of, waited_for};

use std::alloc::{AllocError, Allocator};
use std::collections::HashMap;
use std::hash::{BuildHasherDefault, FoldHasher};
use tomex_rvexec::ByteRange;
use tomex_timing::Facts;

/// The latest finishes, in cycles, of the accesses to a byte, for each width; 0 if there is none.
#[derive(Clone, Copy, Drop)]
pub(crate) struct Finishes {
    pub store: [u64; 4],
    /// The finish of the last load or store.
    pub access: [u64; 4],
}

/// The finishes of the four bytes of an aligned word.
#[derive(Clone, Copy, Drop)]
pub(crate) struct Word {
    pub bytes: [Finishes; 4],
}

/// The finishes of the accesses so far, by the word's address in words.
#[derive(Drop)]
pub(crate) struct Accesses<A: Allocator> {
    pub by_word: HashMap<u64, Word, BuildHasherDefault<FoldHasher>, A>,
}

/// Raises each number to the one in the same place of `others`.
fn raise(numbers: &mut [u64; 4], others: &[u64; 4])
    ensures { (n : ℕ) → n < 4
        → slice_index numbers.new n ≡ max (slice_index others.now n) (slice_index numbers.old n) }
{
    for n in 0..4usize {
        numbers[n] = others[n].max(numbers[n]);
    }
}

impl Finishes {
    /// The finishes before any access.
    fn none() -> Finishes
        ensures { result ≡ no_finishes }
    {
        Finishes {
            store: [0; 4],
            access: [0; 4],
        }
    }

    /// Raises the latest finishes to those that a load or a store of the byte waits for.
    fn raise_to(&self, is_store: bool, latest: &mut [u64; 4])
        ensures { (n : ℕ) → n < 4
            → slice_index latest.new n ≡ max (waited_for is_store (touched_at n self.now)) (slice_index latest.old n) }
    {
        if is_store {
            raise(latest, &self.access);
        } else {
            raise(latest, &self.store);
        }
    }

    /// Notes an access.
    fn note(&mut self, is_store: bool, finishes: &[u64; 4])
        ensures { (n : ℕ) → n < 4
            → touched_at n self.new ≡ touched_by is_store (slice_index finishes.now n) (touched_at n self.old) }
    {
        if is_store {
            raise(&mut self.store, finishes);
        }
        raise(&mut self.access, finishes);
    }
}

impl Word {
    /// The finishes before any access.
    fn none() -> Word
        ensures { result ≡ no_word }
    {
        Word {
            bytes: [Finishes::none(); 4],
        }
    }

    /// Raises the latest finishes to those that an access to these bytes waits for at a byte, which is in this lane.
    #[inline(always)]
    fn raise_byte(
        &self,
        lane: usize,
        byte: u64,
        bytes: ByteRange,
        is_store: bool,
        latest: &mut [u64; 4],
    )
        requires { lane < 4 }
        ensures { (n : ℕ) → n < 4 → slice_index latest.new n
            ≡ (if nat_le bytes.from byte && nat_lt byte bytes.to
            then max (waited_for is_store (touched_of n self.now lane)) (slice_index latest.old n)
            else slice_index latest.old n) }
    {
        if bytes.from <= byte && byte < bytes.to {
            self.bytes[lane].raise_to(is_store, latest);
        }
    }

    /// Raises the latest finishes to those that an access to these bytes waits for in this word, which begins at
    /// `first`.
    #[inline(always)]
    fn raise_to(&self, first: u64, bytes: ByteRange, is_store: bool, latest: &mut [u64; 4])
        requires { first < 2 ^ 63 }
        ensures { (n : ℕ) → n < 4
            → slice_index latest.new n ≡ raised n self.now first bytes is_store 4 (slice_index latest.old n) }
    {
        for lane in 0..4usize {
            self.raise_byte(lane, first + lane as u64, bytes, is_store, latest);
        }
    }

    /// Notes an access to these bytes at a byte, which is in this lane.
    #[inline(always)]
    fn note_byte(
        &mut self,
        lane: usize,
        byte: u64,
        bytes: ByteRange,
        is_store: bool,
        finishes: &[u64; 4],
    )
        requires { lane < 4 }
        ensures noted { (n : ℕ) → n < 4
            → touched_of n self.new lane ≡ touched_after bytes.from bytes.to is_store
            (slice_index finishes.now n) byte (touched_of n self.old lane) }
        ensures rest { (n i : ℕ) → i ≢ lane → touched_of n self.new i ≡ touched_of n self.old i }
    {
        if bytes.from <= byte && byte < bytes.to {
            self.bytes[lane].note(is_store, finishes);
        }
    }

    /// Notes an access to these bytes in this word, which begins at `first`.
    #[inline(always)]
    fn note(&mut self, first: u64, bytes: ByteRange, is_store: bool, finishes: &[u64; 4])
        requires { first < 2 ^ 63 }
        ensures { (n lane : ℕ) → n < 4 → lane < 4
            → touched_of n self.new lane ≡ touched_after bytes.from bytes.to is_store (slice_index finishes.now n)
            (first + lane) (touched_of n self.old lane) }
    {
        for lane in 0..4usize {
            self.note_byte(lane, first + lane as u64, bytes, is_store, finishes);
        }
    }
}

impl<A: Allocator> Accesses<A> {
    /// The state before the first access.
    pub fn none(alloc: A) -> Accesses<A>
        ensures { IsEmpty result.by_word }
    {
        Accesses {
            by_word: HashMap::new(alloc),
        }
    }

    /// The latest finishes that an access to these bytes waits for.
    fn latest(&self, bytes: ByteRange, is_store: bool) -> [u64; 4]
        requires bytes { bytes.from < bytes.to }
        requires small { bytes.to < 2 ^ 63 }
        ensures { (h : ℕ → List Done) (n : ℕ) → n < 4 → AreTouched h self.now.by_word
            → slice_index result n ≡ last_finish (shares_some bytes.from bytes.to is_store) (h n) }
    {
        let mut latest = [0; 4];
        let none = Word::none();
        for word in bytes.from / 4..(bytes.to + 3) / 4 {
            let found = self.by_word.get(&word).unwrap_or(&none);
            found.raise_to(4 * word, bytes, is_store, &mut latest);
        }
        latest
    }

    /// The latest finishes of the older accesses that a step conflicts with, 0 if there is none.
    #[inline(always)]
    pub fn conflict(&self, facts: &Facts) -> [u64; 4]
        requires { AreInRange facts.now }
        ensures { (h : ℕ → List Done) (s : Step) (n : ℕ) → n < 4 → facts.now ≡ facts_of s
            → AreTouched h self.now.by_word → slice_index result n ≡ last_finish (λ x. conflicts x s) (h n) }
    {
        match facts.bytes {
            None => [0; 4],
            Some(bytes) => self.latest(bytes, facts.is_store),
        }
    }

    /// Notes the finishes of an access to these bytes.
    fn note_bytes(
        &mut self,
        bytes: ByteRange,
        is_store: bool,
        finishes: &[u64; 4],
    ) -> Result<(), AllocError>
    where
        A: Clone,
        requires bytes { bytes.from < bytes.to }
        requires small { bytes.to < 2 ^ 63 }
        ensures { IfOk result
            (λ _. AreAfter bytes.from bytes.to is_store finishes.now self.old.by_word self.new.by_word) }
    {
        for word in bytes.from / 4..(bytes.to + 3) / 4 {
            self.by_word
                .entry(word)?
                .or_insert(Word::none())
                .note(4 * word, bytes, is_store, finishes);
        }
        Ok(())
    }

    /// Notes a step that finishes in these cycles.
    #[inline(always)]
    pub fn note(&mut self, facts: &Facts, finishes: &[u64; 4]) -> Result<(), AllocError>
    where
        A: Clone,
        requires { AreInRange facts.now }
        ensures { IfOk result (λ _. (latency : UnitId → ℕ) (s : Step) (h : ℕ → List Done) → facts.now ≡ facts_of s
            → ((n : ℕ) → n < 4 → slice_index finishes.now n ≡ finish_of latency s h n)
            → AreTouched h self.old.by_word → AreTouched (history_after latency s h) self.new.by_word) }
    {
        if let Some(bytes) = facts.bytes {
            self.note_bytes(bytes, facts.is_store, finishes)?;
        }
        Ok(())
    }
}
