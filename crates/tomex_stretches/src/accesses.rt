//! The time of the last access to each byte of memory.

ghost use Rattle.std.specs.Prelude.{◌≡◌, ◌≤◌, ◌<◌, ◌-◌, ℕ, List, ◌∷◌, IfOk};
ghost use Rattle.std.specs.HashMap.{IsEmpty};
ghost use Rattle.tomex_rvexec.specs.declared.step.Step.{Step};
ghost use Rattle.tomex_timing.specs.declared.times.Done.{Done};
ghost use Rattle.tomex_timing.specs.Recent.{AreInRange, facts_of};
ghost use Rattle.tomex_timing.specs.Recurrence.{conflicts};
ghost use Rattle.tomex_floor.specs.Floor.{last_finish};
ghost use Rattle.tomex_floor.specs.Kept.{shares_some};
ghost use Rattle.tomex_stretches.specs.Kept.{AreNoted, AreTouched, AreTouchedBy, no_finishes, noted, waited_of};

use std::alloc::{AllocError, Allocator};
use std::collections::HashMap;
use std::hash::{BuildHasherDefault, FoldHasher};
use tomex_rvexec::ByteRange;
use tomex_timing::Facts;

/// The latest finishes, in cycles, of the accesses to a byte; 0 if there is none.
#[derive(Clone, Copy, Drop)]
pub(crate) struct Finishes {
    pub store: u64,
    /// The finish of the last load or store.
    pub access: u64,
}

/// The finishes of the accesses so far, by the byte's address.
#[derive(Drop)]
pub(crate) struct Accesses<A: Allocator> {
    pub by_byte: HashMap<u64, Finishes, BuildHasherDefault<FoldHasher>, A>,
}

impl Finishes {
    /// The finishes before any access.
    fn none() -> Finishes
        ensures { result ≡ no_finishes }
    {
        Finishes {
            store: 0,
            access: 0,
        }
    }

    /// The finish that a load or a store of the byte waits for.
    fn waited_for(&self, is_store: bool) -> u64
        ensures { result ≡ waited_of is_store self.now }
    {
        if is_store { self.access } else { self.store }
    }

    /// Notes an access.
    fn note(&mut self, is_store: bool, finish: u64)
        ensures { self.new ≡ noted is_store finish self.old }
    {
        if is_store {
            self.store = finish.max(self.store);
        }
        self.access = finish.max(self.access);
    }
}

impl<A: Allocator> Accesses<A> {
    /// The state before the first access.
    pub fn none(alloc: A) -> Accesses<A>
        ensures { IsEmpty result.by_byte }
    {
        Accesses {
            by_byte: HashMap::new(alloc),
        }
    }

    /// The latest finish that an access to these bytes waits for.
    fn latest(&self, bytes: ByteRange, is_store: bool) -> u64
        requires bytes { bytes.from < bytes.to }
        ensures latest { (base : ℕ) (h : List Done) → AreTouched base h self.now.by_byte
            → result - base ≡ last_finish (shares_some bytes.from bytes.to is_store) h }
        ensures by { (g : ℕ) → AreTouchedBy g self.now.by_byte → result ≤ g }
    {
        let mut latest = 0;
        let none = Finishes::none();
        for byte in bytes.from..bytes.to {
            let found = self.by_byte.get(&byte).unwrap_or(&none);
            latest = found.waited_for(is_store).max(latest);
        }
        latest
    }

    /// The latest finish of the older accesses that a step conflicts with, 0 if there is none.
    pub fn conflict(&self, facts: &Facts) -> u64
        requires { AreInRange facts.now }
        ensures conflict { (base : ℕ) (h : List Done) (s : Step) → facts.now ≡ facts_of s
            → AreTouched base h self.now.by_byte → result - base ≡ last_finish (λ x. conflicts x s) h }
        ensures by { (g : ℕ) → AreTouchedBy g self.now.by_byte → result ≤ g }
    {
        match facts.bytes {
            None => 0,
            Some(bytes) => self.latest(bytes, facts.is_store),
        }
    }

    /// Notes the finish of an access to these bytes.
    fn note_bytes(
        &mut self,
        bytes: ByteRange,
        is_store: bool,
        finish: u64,
    ) -> Result<(), AllocError>
    where
        A: Clone,
        requires { bytes.from < bytes.to }
        ensures { IfOk result
            (λ _. AreNoted bytes.from bytes.to is_store finish self.old.by_byte self.new.by_byte) }
    {
        for byte in bytes.from..bytes.to {
            self.by_byte
                .entry(byte)?
                .or_insert(Finishes::none())
                .note(is_store, finish);
        }
        Ok(())
    }

    /// Notes a step that finishes in this cycle.
    pub fn note(&mut self, facts: &Facts, finish: u64) -> Result<(), AllocError>
    where
        A: Clone,
        requires { AreInRange facts.now }
        ensures touched { IfOk result (λ _. (base : ℕ) (d : Done) (h : List Done) → facts.now ≡ facts_of d.step
            → finish - base ≡ d.at.finish → AreTouched base h self.old.by_byte
            → AreTouched base (d ∷ h) self.new.by_byte) }
        ensures by { IfOk result (λ _. (g : ℕ) → finish ≤ g → AreTouchedBy g self.old.by_byte
            → AreTouchedBy g self.new.by_byte) }
    {
        if let Some(bytes) = facts.bytes {
            self.note_bytes(bytes, facts.is_store, finish)?;
        }
        Ok(())
    }
}
