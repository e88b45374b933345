//! The walk through a run's visits.

ghost use Rattle.std.specs.Prelude.{◌≡◌, ℕ, ◌+◌, ◌-◌, ◌^◌, ◌<◌, ◌≤◌, [], ◌∷◌, ◌++◌, List, Option, length, map, take};
ghost use Rattle.std.specs.Prelude.{drop, reverse};
ghost use Rattle.std.specs.Prelude.{Bool, IfOk, Some, slice_index_or, slice_set};
ghost use Rattle.std.specs.Option.{option_map};
ghost use Rattle.tomex_loops.specs.declared.coming.Coming.{Coming};
ghost use Rattle.tomex_loops.specs.declared.visit.Open.{Open};
ghost use Rattle.tomex_loops.specs.Calls.{first_of, moved};
ghost use Rattle.tomex_loops.specs.Jumps.{AreJumps, IsForest};
ghost use Rattle.tomex_loops.specs.Loops.{heads_below};
ghost use Rattle.tomex_loops.specs.Ways.{AreLower, loop_in};
ghost use Rattle.tomex_loops.specs.Visits.{Walk, arrive, close, come, ending, enter, go_round, innermost};
ghost use Rattle.tomex_loops.specs.Visits.{innermost_here, leave, setting_out};
ghost use Rattle.tomex_loops.specs.Visits.{still_open, walk_after, walk_on, walks_after};
ghost use Rattle.tomex_loops.specs.Walking.{IsWalking, ShowsWalk, begins_with, found_by};

use crate::coming::{Coming, Move};
use crate::forest::{Forest, is_in_loop};
use crate::visit::{Open, Round, Visit};
use std::alloc::{AllocError, Allocator};

/// The visits of a run so far.
#[derive(Drop)]
pub(crate) struct Walker<A: Allocator> {
    /// Those of all calls that are under way, the innermost last.
    pub under_way: Vec<Open, A>,
    /// Where those of the latest call begin.
    pub base: usize,
    /// Where those of the calls around begin, the latest last.
    pub bases: Vec<usize, A>,
    pub visits: Vec<Visit, A>,
    /// The step before which each visit ends, if it has ended.
    pub ends: Vec<Option<u32>, A>,
    pub rounds: Vec<Round, A>,
    /// The innermost visit of each step.
    pub innermost: Vec<Option<u32>, A>,
    /// The same of its own call only.
    pub here: Vec<Option<u32>, A>,
}

/// The number of the innermost of some visits, which is the last.
fn innermost_of(visits: &[Open]) -> Option<u32>
    ensures { result ≡ option_map (λ v. v.visit) (first_of (reverse visits.now)) }
{
    Some(visits.last()?.visit)
}

/// The number of the innermost visit of the latest call, whose visits begin at `base`.
fn innermost_here(visits: &[Open], base: usize) -> Option<u32>
    requires { base ≤ length visits.now }
    ensures { result ≡ option_map (λ v. v.visit) (first_of (reverse (drop base visits.now))) }
{
    innermost_of(&visits[base..])
}

/// True if the innermost visit of the latest call is one of the loop with this head.
fn begins_with(visits: &[Open], base: usize, head: u32) -> bool
    requires { base ≤ length visits.now }
    ensures { result ≡ begins_with head (reverse (drop base visits.now)) }
{
    if visits.len() == base {
        return false;
    }
    visits[visits.len() - 1].head == head
}

/// Notes that a visit ends before the step `now`.
fn close<A: Allocator>(ends: &mut Vec<Option<u32>, A>, visit: u32, now: u32)
    ensures { ends.new.items ≡ slice_set ends.old.items visit (Some now) }
{
    if let Some(end) = ends.get_mut(visit as usize) {
        *end = Some(now);
    }
}

/// Ends the visits from a place of the list on, before the step `now`.
fn end_call<A: Allocator>(
    under_way: &mut Vec<Open, A>,
    ends: &mut Vec<Option<u32>, A>,
    base: usize,
    now: u32,
)
    requires { base ≤ length under_way.old.items }
    ensures around { under_way.new.items ≡ take base under_way.old.items }
    ensures ends { ends.new.items ≡ close now (reverse (drop base under_way.old.items)) ends.old.items }
{
    while under_way.len() > base {
        let last = under_way[under_way.len() - 1];
        under_way.pop();
        close(ends, last.visit, now);
    }
}

/// Ends the visits of the latest call whose loops don't have a place, before the step `now`.
fn leave<A: Allocator>(
    under_way: &mut Vec<Open, A>,
    ends: &mut Vec<Option<u32>, A>,
    base: usize,
    loops: &[Option<u32>],
    jumps: &[u32],
    place: u32,
    now: u32,
)
    requires place { place < length loops.now }
    requires many { length jumps.now ≡ length loops.now }
    requires lower { AreLower loops.now }
    requires jumps { AreJumps loops.now jumps.now }
    requires low { base ≤ length under_way.old.items }
    ensures low { base ≤ length under_way.new.items }
    ensures around { take base under_way.new.items ≡ take base under_way.old.items }
    ensures here { reverse (drop base under_way.new.items)
        ≡ still_open (loop_in loops.now) place (reverse (drop base under_way.old.items)) }
    ensures ends { ends.new.items ≡ close now
        (ending (loop_in loops.now) place (reverse (drop base under_way.old.items))) ends.old.items }
{
    while under_way.len() > base {
        let last = under_way[under_way.len() - 1];
        if is_in_loop(loops, jumps, last.head, place) {
            return;
        }
        under_way.pop();
        close(ends, last.visit, now);
    }
}

impl<A: Allocator> Walker<A> {
    /// Goes into a new call, or back from one.
    fn go(&mut self, by: Move, now: u32) -> Result<(), AllocError>
        requires { IsWalking self.old }
        ensures state { IfOk result (λ _. IsWalking self.new) }
        ensures visits { IfOk result (λ _. self.new.visits.items ≡ self.old.visits.items) }
        ensures innermost { IfOk result (λ _. self.new.innermost.items ≡ self.old.innermost.items) }
        ensures here { IfOk result (λ _. self.new.here.items ≡ self.old.here.items) }
        ensures shows { IfOk result (λ _. (w : Walk) → now ≡ w.passed → ShowsWalk w self.old
            → ShowsWalk (come by w) self.new) }
    {
        match by {
            Move::On => {}
            Move::Call => {
                self.bases.push(self.base)?;
                self.base = self.under_way.len();
            }
            Move::Return => {
                end_call(&mut self.under_way, &mut self.ends, self.base, now);
                self.base = self.bases.pop().unwrap_or(self.under_way.len());
            }
        }
        Ok(())
    }

    /// Begins a visit at a head.
    fn enter(&mut self, head: u32, number: u32, now: u32) -> Result<(), AllocError>
        requires state { IsWalking self.old }
        requires few { length self.old.visits.items < 2 ^ 32 }
        ensures state { IfOk result (λ _. IsWalking self.new) }
        ensures visits { IfOk result (λ _. length self.new.visits.items ≤ length self.old.visits.items + 1) }
        ensures innermost { IfOk result (λ _. self.new.innermost.items ≡ self.old.innermost.items) }
        ensures here { IfOk result (λ _. self.new.here.items ≡ self.old.here.items) }
        ensures shows { IfOk result (λ _. (heads : ℕ → Bool) (w : Walk) → number ≡ heads_below heads head
            → now ≡ w.passed → ShowsWalk w self.old → ShowsWalk (enter heads head w) self.new) }
    {
        let visit = Visit {
            head,
            number,
            around: innermost_of(&self.under_way),
            within: innermost_here(&self.under_way, self.base),
            first: now,
        };
        self.under_way.push(Open {
            visit: self.visits.len() as u32,
            head,
            latest: now,
        })?;
        self.visits.push(visit)?;
        self.ends.push(None)?;
        Ok(())
    }

    /// Begins the next iteration of the innermost visit, so that a round is over.
    fn go_round(&mut self, now: u32) -> Result<(), AllocError>
        requires state { IsWalking self.old }
        requires some { self.old.base < length self.old.under_way.items }
        ensures state { IfOk result (λ _. IsWalking self.new) }
        ensures visits { IfOk result (λ _. self.new.visits.items ≡ self.old.visits.items) }
        ensures innermost { IfOk result (λ _. self.new.innermost.items ≡ self.old.innermost.items) }
        ensures here { IfOk result (λ _. self.new.here.items ≡ self.old.here.items) }
        ensures shows { IfOk result (λ _. (w : Walk) (v : Open) (around : List Open) → now ≡ w.passed
            → w.under_way.here ≡ v ∷ around → ShowsWalk w self.old → ShowsWalk (go_round w v around) self.new) }
    {
        let last = self.under_way.len() - 1;
        let innermost = self.under_way[last];
        self.rounds.push(Round {
            visit: innermost.visit,
            from: innermost.latest,
            to: now,
        })?;
        self.under_way[last] = Open {
            visit: innermost.visit,
            head: innermost.head,
            latest: now,
        };
        Ok(())
    }

    /// Arrives at a place, which is a head or not.
    fn arrive(&mut self, is_head: bool, place: u32, number: u32, now: u32) -> Result<(), AllocError>
        requires state { IsWalking self.old }
        requires few { length self.old.visits.items < 2 ^ 32 }
        ensures state { IfOk result (λ _. IsWalking self.new) }
        ensures visits { IfOk result (λ _. length self.new.visits.items ≤ length self.old.visits.items + 1) }
        ensures innermost { IfOk result (λ _. self.new.innermost.items ≡ self.old.innermost.items) }
        ensures here { IfOk result (λ _. self.new.here.items ≡ self.old.here.items) }
        ensures shows { IfOk result (λ _. (heads : ℕ → Bool) (w : Walk) → is_head ≡ heads place
            → number ≡ heads_below heads place → now ≡ w.passed
            → ShowsWalk w self.old → ShowsWalk (arrive heads place w) self.new) }
    {
        if !is_head {
            return Ok(());
        }
        if begins_with(&self.under_way, self.base, place) {
            self.go_round(now)?;
            return Ok(());
        }
        self.enter(place, number, now)?;
        Ok(())
    }

    /// Ends the visits of the latest call whose loops don't have a place.
    fn leave_loops<B: Allocator>(&mut self, forest: &Forest<B>, place: u32, now: u32)
        requires state { IsWalking self.old }
        requires forest { IsForest forest.now }
        requires place { place < length forest.now.loops.items }
        ensures state { IsWalking self.new }
        ensures visits { self.new.visits.items ≡ self.old.visits.items }
        ensures innermost { self.new.innermost.items ≡ self.old.innermost.items }
        ensures here { self.new.here.items ≡ self.old.here.items }
        ensures shows { (w : Walk) → now ≡ w.passed → ShowsWalk w self.old
            → ShowsWalk (leave (loop_in forest.now.loops.items) place w) self.new }
    {
        leave(
            &mut self.under_way,
            &mut self.ends,
            self.base,
            &forest.loops,
            &forest.jumps,
            place,
            now,
        );
    }

    /// Goes on to the step `now`.
    fn walk_on<B: Allocator>(
        &mut self,
        forest: &Forest<B>,
        coming: Coming,
        now: u32,
    ) -> Result<(), AllocError>
        requires state { IsWalking self.old }
        requires forest { IsForest forest.now }
        requires place { coming.place < length forest.now.loops.items }
        requires few { length self.old.visits.items < 2 ^ 32 }
        ensures state { IfOk result (λ _. IsWalking self.new) }
        ensures visits { IfOk result (λ _. length self.new.visits.items ≤ length self.old.visits.items + 1) }
        ensures shows { IfOk result (λ _. (w : Walk) → now ≡ w.passed → ShowsWalk w self.old
            → ShowsWalk (walk_on (found_by forest.now.heads.items forest.now.loops.items) w coming) self.new) }
        ensures innermost { IfOk result (λ _. (w : Walk) → now ≡ w.passed → ShowsWalk w self.old
            → self.new.innermost.items ≡ self.old.innermost.items
            ++ innermost (walk_on (found_by forest.now.heads.items forest.now.loops.items) w coming).under_way ∷ []) }
        ensures here { IfOk result (λ _. (w : Walk) → now ≡ w.passed → ShowsWalk w self.old
            → self.new.here.items ≡ self.old.here.items ++ innermost_here
            (walk_on (found_by forest.now.heads.items forest.now.loops.items) w coming).under_way ∷ []) }
    {
        let place = coming.place;
        self.go(coming.by, now)?;
        self.leave_loops(forest, place, now);
        self.arrive(
            forest.heads[place as usize],
            place,
            forest.numbers[place as usize],
            now,
        )?;
        let innermost = innermost_of(&self.under_way);
        let here = innermost_here(&self.under_way, self.base);
        self.innermost.push(innermost)?;
        self.here.push(here)?;
        Ok(())
    }
}

/// The visits of a run that reaches its steps in these ways.
pub(crate) fn walk<A: Allocator + Clone, B: Allocator>(
    alloc: A,
    forest: &Forest<B>,
    comings: &[Coming],
) -> Result<Walker<A>, AllocError>
    requires few { length comings.now < 2 ^ 32 }
    requires forest { IsForest forest.now }
    requires places { (k : ℕ) (z : Coming) → k < length comings.now
        → (slice_index_or comings.now k z).place < length forest.now.loops.items }
    ensures visits { IfOk result (λ r. r.visits.items
        ≡ (walk_after (found_by forest.now.heads.items forest.now.loops.items) setting_out comings.now).visits) }
    ensures rounds { IfOk result (λ r. r.rounds.items
        ≡ (walk_after (found_by forest.now.heads.items forest.now.loops.items) setting_out comings.now).rounds) }
    ensures innermost { IfOk result (λ r. r.innermost.items ≡ map (λ w. innermost w.under_way)
        (walks_after (found_by forest.now.heads.items forest.now.loops.items) setting_out comings.now)) }
    ensures ends { IfOk result (λ r. r.ends.items
        ≡ (walk_after (found_by forest.now.heads.items forest.now.loops.items) setting_out comings.now).ends) }
    ensures here { IfOk result (λ r. r.here.items ≡ map (λ w. innermost_here w.under_way)
        (walks_after (found_by forest.now.heads.items forest.now.loops.items) setting_out comings.now)) }
{
    let mut walker = Walker {
        under_way: Vec::new(alloc.clone()?),
        base: 0,
        bases: Vec::new(alloc.clone()?),
        visits: Vec::new(alloc.clone()?),
        ends: Vec::new(alloc.clone()?),
        rounds: Vec::new(alloc.clone()?),
        innermost: Vec::new(alloc.clone()?),
        here: Vec::new(alloc),
    };
    for now in 0..comings.len() {
        walker.walk_on(forest, comings[now], now as u32)?;
    }
    Ok(walker)
}
