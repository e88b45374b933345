//! The states that are kept of a run, and what follows them.

ghost use Rattle.std.specs.Prelude.{◌≡◌, ◌↔◌, ◌+◌, ◌*◌, ◌^◌, ◌<◌, ◌≤◌, [], length, All, IfOk, IfSome, IsTrue};
ghost use Rattle.std.specs.Prelude.{slice_index_or};
ghost use Rattle.tomex_timing.specs.Ahead.{IsSettledBy, held_by};
ghost use Rattle.tomex_states.specs.Reuse.{LookAlike};
ghost use Rattle.tomex_evaluation.specs.Kept.{HasForgotten, HasOneMore, IsNoted, IsUsable};
ghost use Rattle.tomex_evaluation.specs.Kept.{entry_of, entry_place, next_of};

use std::alloc::{AllocError, Allocator};
use tomex_config::Config;
use tomex_states::State;

/// The most states that are kept at once.
const MOST: usize = 32;

/// The most different blocks for which there is room for the entries of all states from the start on.
const FEW: usize = 4096;

/// What follows a kept state and a block.
#[derive(Clone, Copy)]
pub(crate) struct Next {
    /// The number of the state after the block.
    pub state: usize,
    /// How many cycles later the next step may issue.
    pub passed: u64,
}

/// What is known of that, in eight bytes.
#[derive(Clone, Copy)]
pub(crate) enum Entry {
    Unknown,
    Leads { state: u8, passed: u32 },
}

impl Entry {
    #[inline(always)]
    fn next(self) -> Option<Next>
        ensures { result ≡ next_of self }
    {
        match self {
            Entry::Unknown => None,
            Entry::Leads { state, passed } => Some(Next {
                state: usize::from(state),
                passed: u64::from(passed),
            }),
        }
    }
}

/// The states that are kept of a run, and what follows each of them.
#[derive(Drop)]
pub(crate) struct Known<A: Allocator> {
    pub states: Vec<State<A>, A>,
    /// A row of entries for each state, by the numbers of blocks.
    pub next: Vec<Entry, A>,
    /// How many different blocks there are.
    pub different: usize,
}

impl<A: Allocator> Known<A> {
    /// What follows a state and a block, if that is known.
    #[inline(always)]
    pub(crate) fn after(&self, state: usize, number: usize) -> Option<Next>
        requires { entry_place self.now.different state number < length self.now.next.items }
        ensures { result ≡ entry_of self.now state number }
    {
        self.next[state * self.different + number].next()
    }

    /// Notes what follows a state and a block, if both states have numbers, and an entry holds it.
    pub(crate) fn note(
        &mut self,
        from: Option<usize>,
        number: usize,
        to: Option<usize>,
        passed: u64,
    )
        requires { IfSome from (λ v. IfSome to
            (λ w. entry_place self.old.different v number < length self.old.next.items)) }
        ensures { IsNoted self.old self.new from number to passed }
    {
        let (Some(from), Some(state)) = (from, to) else {
            return;
        };
        if state <= u8::MAX as usize && passed <= u32::MAX as u64 {
            self.next[from * self.different + number] = Entry::Leads {
                state: state as u8,
                passed: passed as u32,
            };
        }
    }

    /// The number of a kept state that looks like this one, if there is one.
    pub(crate) fn find(&self, state: &State<A>, config: &Config) -> Option<usize>
        requires kept { All (IsUsable config.now) self.now.states.items }
        requires state { IsUsable config.now state.now }
        ensures { IfSome result (λ v. (v < length self.now.states.items)
            × LookAlike config.now (slice_index_or self.now.states.items v state.now) state.now) }
    {
        for (number, kept) in self.states.iter().enumerate() {
            if kept.looks_like(state, config) {
                return Some(number);
            }
        }
        None
    }

    /// True if no more states may be kept.
    pub(crate) fn is_full(&self) -> bool
        ensures { IsTrue result ↔ (32 ≤ length self.now.states.items) }
    {
        self.states.len() >= MOST
    }

    /// Forgets all states.
    pub(crate) fn forget(&mut self)
        ensures { HasForgotten self.old self.new }
    {
        self.states.clear();
        self.next.clear();
    }
}

impl<A: Allocator + Clone> Known<A> {
    /// Nothing is known yet.
    pub(crate) fn new(alloc: &A, different: usize) -> Result<Known<A>, AllocError>
        ensures { IfOk result (λ k. (k.states.items ≡ []) × (k.next.items ≡ []) × (k.different ≡ different)) }
    {
        let room = if different <= FEW {
            MOST * different
        } else {
            0
        };
        Ok(Known {
            states: Vec::new(alloc.clone()?),
            next: Vec::with_capacity(alloc.clone()?, room)?,
            different,
        })
    }

    /// Keeps a copy of a state, with the next number. It isn't known yet what follows it.
    pub(crate) fn keep(&mut self, alloc: &A, state: &State<A>) -> Result<(), AllocError>
        requires state { IsSettledBy (held_by state.now.recent) }
        requires few { self.old.different < 2 ^ 32 }
        ensures { IfOk result (λ _. HasOneMore state.now self.old self.new) }
    {
        let mut copy = State::new(alloc.clone()?, alloc.clone()?);
        copy.copy_from(state)?;
        self.states.push(copy)?;
        let count = self.next.len() + self.different;
        self.next.resize(count, Entry::Unknown)?;
        Ok(())
    }
}
