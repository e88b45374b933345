//! The loops of a run.

ghost use Rattle.std.specs.Prelude.{◌≡◌, ℕ, ◌^◌, ◌<◌, false, None, length, slice_index_or, IfOk};
ghost use Rattle.tomex_loops.specs.Runs.{ends_of, found_of, heads_of, heads_to, here_of, innermost_of, rounds_of};
ghost use Rattle.tomex_loops.specs.Runs.{visits_of};
ghost use Rattle.tomex_loops.specs.Sound.{AreSound};

use crate::coming::comings;
use crate::finding::find;
use crate::forest::forest_of;
use crate::visit::{Round, Visit};
use crate::visiting::walk;
use std::alloc::{AllocError, Allocator, Global};
use std::marker::Model;
use tomex_rvexec::Step;

/// The loops of a run. A place, an address that the run reached, is named by the number of the first step there,
/// counted from 0, and a loop by the place of its head.
#[derive(Drop)]
pub struct Loops<A: Allocator = Global> {
    heads: Vec<u32, A>,
    loops: Vec<Option<u32>, A>,
    visits: Vec<Visit, A>,
    ends: Vec<Option<u32>, A>,
    innermost: Vec<Option<u32>, A>,
    here: Vec<Option<u32>, A>,
    rounds: Vec<Round, A>,
}

impl<A: Allocator> Model for Loops<A> {
    ghost use Rattle.tomex_loops.specs.Runs.{Known};

    ghost Value = { Known };

    ghost view = { λ l. record {
      heads = l.heads.items;
      loops = l.loops.items;
      visits = l.visits.items;
      ends = l.ends.items;
      innermost = l.innermost.items;
      here = l.here.items;
      rounds = l.rounds.items;
    } };
}

/// Those places that are heads.
fn heads_to<A: Allocator>(alloc: A, heads: &[bool]) -> Result<Vec<u32, A>, AllocError>
    requires { length heads.now < 2 ^ 32 }
    ensures { IfOk result (λ v. v.items ≡ heads_to (λ x. slice_index_or heads.now x false) (length heads.now)) }
{
    let mut result = Vec::new(alloc);
    for place in 0..heads.len() {
        if heads[place] {
            result.push(place as u32)?;
        }
    }
    Ok(result)
}

impl<A: Allocator + Clone> Loops<A> {
    /// The loops of a run with these steps.
    ///
    /// The work is linear in the steps, except for looking up the address of each in a map, and whether it is in the
    /// loops of the visits under way, which is logarithmic in how deep loops are nested.
    pub fn of(alloc: A, steps: &[Step]) -> Result<Loops<A>, AllocError>
        requires few { length steps.now < 2 ^ 28 }
        ensures heads { IfOk result (λ l. l.heads ≡ heads_of steps.now) }
        ensures many { IfOk result (λ l. length l.loops ≡ length steps.now) }
        ensures loops { IfOk result (λ l. (x : ℕ) → x < length steps.now
            → slice_index_or l.loops x None ≡ (found_of steps.now).loop x) }
        ensures visits { IfOk result (λ l. l.visits ≡ visits_of steps.now) }
        ensures ends { IfOk result (λ l. l.ends ≡ ends_of steps.now) }
        ensures innermost { IfOk result (λ l. l.innermost ≡ innermost_of steps.now) }
        ensures here { IfOk result (λ l. l.here ≡ here_of steps.now) }
        ensures rounds { IfOk result (λ l. l.rounds ≡ rounds_of steps.now) }
        ensures sound { IfOk result (λ l. AreSound (length steps.now) l) }
    {
        let comings = comings(alloc.clone()?, steps)?;
        let found = find(alloc.clone()?, &comings)?;
        let forest = forest_of(alloc.clone()?, found)?;
        let walker = walk(alloc.clone()?, &forest, &comings)?;
        let heads = heads_to(alloc, &forest.heads)?;
        Ok(Loops {
            heads,
            loops: forest.loops,
            visits: walker.visits,
            ends: walker.ends,
            innermost: walker.innermost,
            here: walker.here,
            rounds: walker.rounds,
        })
    }
}

impl<A: Allocator> Loops<A> {
    /// The heads of the loops, in the order in which the run first reaches them: that of the loop with number n stands
    /// at n.
    pub fn heads(&self) -> &[u32]
        ensures { result.now ≡ self.now.heads }
    {
        self.heads.as_slice()
    }

    /// The head of each place's loop: for a head, that of the loop around.
    pub fn loops(&self) -> &[Option<u32>]
        ensures { result.now ≡ self.now.loops }
    {
        self.loops.as_slice()
    }

    /// The visits of all loops, in the order in which they begin.
    pub fn visits(&self) -> &[Visit]
        ensures { result.now ≡ self.now.visits }
    {
        self.visits.as_slice()
    }

    /// The step before which each visit ends; `None` if the run ends in it.
    pub fn ends(&self) -> &[Option<u32>]
        ensures { result.now ≡ self.now.ends }
    {
        self.ends.as_slice()
    }

    /// The number of the innermost visit of each step, in its own call or else in the latest of the calls around that
    /// has one. A step begins an iteration of that visit if it is at its head.
    pub fn innermost(&self) -> &[Option<u32>]
        ensures { result.now ≡ self.now.innermost }
    {
        self.innermost.as_slice()
    }

    /// The same in its own call only.
    pub fn here(&self) -> &[Option<u32>]
        ensures { result.now ≡ self.now.here }
    {
        self.here.as_slice()
    }

    /// The rounds of all visits, in the order in which they end.
    pub fn rounds(&self) -> &[Round]
        ensures { result.now ≡ self.now.rounds }
    {
        self.rounds.as_slice()
    }
}
