//! Which places are heads of loops, and which loop each place has.

ghost use Rattle.std.specs.Prelude.{◌≡◌, ℕ, ◌+◌, ◌-◌, ◌^◌, ◌<◌, ◌≤◌, [], ◌∷◌, ◌++◌, length, map, take, drop, All, IfOk};
ghost use Rattle.std.specs.Prelude.{None};
ghost use Rattle.std.specs.Prelude.{List, true, false, replicate, IfSome, slice_index, slice_index_or, slice_set};
ghost use Rattle.std.specs.Prelude.{reverse};
ghost use Rattle.std.specs.Option.{option_map};
ghost use Rattle.tomex_loops.specs.Calls.{moved};
ghost use Rattle.tomex_loops.specs.Loops.{Found, come_to, found_in, head_of, loop_after, loop_given, nothing, stand};
ghost use Rattle.tomex_loops.specs.Ways.{AreFound, AreLower, AreStops, IsFinding, ShowsFound, loop_in, places_of};
ghost use Rattle.tomex_loops.specs.Ways.{ways_of};

use crate::coming::{Coming, Move};
use std::alloc::{AllocError, Allocator};

/// A place on a way, and where it stands last on the ways before that, if it does.
#[derive(Clone, Copy)]
pub(crate) struct Stop {
    pub place: u32,
    pub before: Option<u32>,
}

/// The heads and the loops of a run.
#[derive(Drop)]
pub(crate) struct Heads<A: Allocator> {
    /// True for each place that is the head of a loop.
    pub heads: Vec<bool, A>,
    /// The head of each place's loop.
    pub loops: Vec<Option<u32>, A>,
}

/// What is found so far.
#[derive(Drop)]
pub(crate) struct Finder<A: Allocator> {
    /// The ways of the calls that aren't over, one after the other, the latest call's last.
    pub stops: Vec<Stop, A>,
    /// Where each place stands last.
    pub at: Vec<Option<u32>, A>,
    /// Where the latest call's way begins.
    pub base: usize,
    /// Where those of the calls around begin, the latest last.
    pub bases: Vec<usize, A>,
    /// The places of a round.
    pub round: Vec<u32, A>,
    pub heads: Vec<bool, A>,
    pub loops: Vec<Option<u32>, A>,
}

/// Cuts the ways to `count` places.
fn cut<A: Allocator>(stops: &mut Vec<Stop, A>, at: &mut Vec<Option<u32>, A>, count: usize)
    requires { AreStops stops.old.items at.old.items }
    ensures stops { stops.new.items ≡ take count stops.old.items }
    ensures at { AreStops stops.new.items at.new.items }
    ensures many { length at.new.items ≡ length at.old.items }
{
    while stops.len() > count {
        if let Some(stop) = stops.pop() {
            at[stop.place as usize] = stop.before;
        }
    }
}

/// Puts a place at the end of the latest call's way.
fn put<A: Allocator>(
    stops: &mut Vec<Stop, A>,
    at: &mut Vec<Option<u32>, A>,
    place: u32,
) -> Result<(), AllocError>
    requires stops { AreStops stops.old.items at.old.items }
    requires place { place < length at.old.items }
    requires few { length stops.old.items < 2 ^ 32 }
    ensures places { IfOk result (λ _. places_of stops.new.items ≡ places_of stops.old.items ++ place ∷ []) }
    ensures at { IfOk result (λ _. AreStops stops.new.items at.new.items) }
    ensures many { IfOk result (λ _. length at.new.items ≡ length at.old.items) }
{
    let before = at[place as usize];
    let end = stops.len() as u32;
    stops.push(Stop { place, before })?;
    at[place as usize] = Some(end);
    Ok(())
}

/// Where a place stands among all ways, if it is on the way that begins at `base`.
fn stand(at: &[Option<u32>], base: usize, place: u32) -> Option<usize>
    requires { place < length at.now }
    ensures { (places : List ℕ) → slice_index_or at.now place None ≡ stand places place
        → result ≡ option_map (λ k. base + k) (stand (drop base places) place) }
{
    let Some(last) = at[place as usize] else {
        return None;
    };
    let last = last as usize;
    if base <= last { Some(last) } else { None }
}

/// The places of some stops, put into a list.
fn copy_places<A: Allocator>(stops: &[Stop], places: &mut Vec<u32, A>) -> Result<(), AllocError>
    ensures { IfOk result (λ _. places.new.items ≡ places_of stops.now) }
{
    places.clear();
    for stop in stops {
        places.push(stop.place)?;
    }
    Ok(())
}

/// The place of a round at which the run was first.
fn head_of(place: u32, round: &[u32]) -> u32
    ensures { result ≡ head_of place round.now }
{
    let mut head = place;
    for other in round {
        head = head.min(*other);
    }
    head
}

/// The loop of a place of a round: the round's, if it isn't its head, and has none or one whose head is on the way
/// before the round.
fn loop_given(
    at: &[Option<u32>],
    base: usize,
    head: u32,
    place: u32,
    has: Option<u32>,
) -> Option<u32>
    requires place { place < length at.now }
    requires least { head ≤ place }
    requires below { IfSome has (λ h. h < place) }
    ensures below { IfSome result (λ h. h < place) }
    ensures given { (places : List ℕ) → ((p : ℕ) → p < length at.now → slice_index_or at.now p None ≡ stand places p)
        → result ≡ loop_given (drop base places) head place has }
{
    if place == head {
        return has;
    }
    match has {
        None => Some(head),
        Some(around) => match stand(at, base, around) {
            Some(_) => Some(head),
            None => has,
        },
    }
}

/// Gives a loop to the places of its round.
fn give<A: Allocator>(
    loops: &mut Vec<Option<u32>, A>,
    at: &[Option<u32>],
    base: usize,
    round: &[u32],
    head: u32,
)
    requires round { (k : ℕ) → k < length round.now → slice_index round.now k < length loops.old.items }
    requires least { (k : ℕ) → k < length round.now → head ≤ slice_index round.now k }
    requires many { length at.now ≡ length loops.old.items }
    requires lower { AreLower loops.old.items }
    ensures many { length loops.new.items ≡ length loops.old.items }
    ensures lower { AreLower loops.new.items }
    ensures loops { (places : List ℕ) (x : ℕ)
        → ((p : ℕ) → p < length at.now → slice_index_or at.now p None ≡ stand places p)
        → x < length loops.old.items → loop_in loops.new.items x
        ≡ loop_after (drop base places) round.now head (loop_in loops.old.items) x }
{
    for place in round {
        let has = loops[*place as usize];
        loops[*place as usize] = loop_given(at, base, head, *place, has);
    }
}

impl<A: Allocator> Finder<A> {
    /// Goes into a new call, or back from one.
    fn go(&mut self, by: Move) -> Result<(), AllocError>
        requires { IsFinding self.old }
        ensures state { IfOk result (λ _. IsFinding self.new) }
        ensures few { IfOk result (λ _. length self.new.stops.items ≤ length self.old.stops.items) }
        ensures many { IfOk result (λ _. length self.new.at.items ≡ length self.old.at.items) }
        ensures ways { IfOk result (λ _. ways_of self.new ≡ moved by (ways_of self.old)) }
        ensures heads { IfOk result (λ _. self.new.heads.items ≡ self.old.heads.items) }
        ensures loops { IfOk result (λ _. self.new.loops.items ≡ self.old.loops.items) }
    {
        match by {
            Move::On => {}
            Move::Call => {
                self.bases.push(self.base)?;
                self.base = self.stops.len();
            }
            Move::Return => {
                cut(&mut self.stops, &mut self.at, self.base);
                self.base = self.bases.pop().unwrap_or(self.stops.len());
            }
        }
        Ok(())
    }

    /// Comes round to a place that stands at `k`: a round leaves the way, and its loop is noted.
    fn come_round(&mut self, place: u32, k: usize) -> Result<(), AllocError>
        requires state { IsFinding self.old }
        requires base { self.old.base ≤ k }
        requires within { k < length self.old.stops.items }
        requires place { place < length self.old.at.items }
        ensures state { IfOk result (λ _. IsFinding self.new) }
        ensures stops { IfOk result (λ _. self.new.stops.items ≡ take k self.old.stops.items) }
        ensures bases { IfOk result
            (λ _. (self.new.base ≡ self.old.base) × (self.new.bases.items ≡ self.old.bases.items)) }
        ensures many { IfOk result (λ _. length self.new.at.items ≡ length self.old.at.items) }
        ensures heads { IfOk result (λ _. self.new.heads.items ≡ slice_set self.old.heads.items
            (head_of place (drop k (places_of self.old.stops.items))) true) }
        ensures loops { IfOk result (λ _. (x : ℕ) → x < length self.old.loops.items → loop_in self.new.loops.items x
            ≡ loop_after (drop self.old.base (take k (places_of self.old.stops.items)))
            (drop k (places_of self.old.stops.items)) (head_of place (drop k (places_of self.old.stops.items)))
            (loop_in self.old.loops.items) x) }
    {
        copy_places(&self.stops[k..], &mut self.round)?;
        cut(&mut self.stops, &mut self.at, k);
        let head = head_of(place, &self.round);
        give(&mut self.loops, &self.at, self.base, &self.round, head);
        self.heads[head as usize] = true;
        Ok(())
    }

    /// Comes to a place of the latest call.
    fn come(&mut self, place: u32) -> Result<(), AllocError>
        requires state { IsFinding self.old }
        requires place { place < length self.old.at.items }
        requires few { length self.old.stops.items < 2 ^ 32 }
        ensures state { IfOk result (λ _. IsFinding self.new) }
        ensures few { IfOk result (λ _. length self.new.stops.items ≤ length self.old.stops.items + 1) }
        ensures many { IfOk result (λ _. length self.new.at.items ≡ length self.old.at.items) }
        ensures found { IfOk result (λ _. (f : Found) → ShowsFound f self.old
            → ShowsFound (come_to place f (stand f.ways.here place)) self.new) }
    {
        if let Some(k) = stand(&self.at, self.base, place) {
            self.come_round(place, k)?;
        }
        put(&mut self.stops, &mut self.at, place)?;
        Ok(())
    }
}

/// A list of `count` places, none of which has a number.
pub(crate) fn no_numbers<A: Allocator>(
    alloc: A,
    count: usize,
) -> Result<Vec<Option<u32>, A>, AllocError>
    ensures { IfOk result (λ v. v.items ≡ replicate count None) }
{
    let mut numbers = Vec::new(alloc);
    for _place in 0..count {
        numbers.push(None)?;
    }
    Ok(numbers)
}

/// A list of `count` places, none of which is a head.
pub(crate) fn no_heads<A: Allocator>(alloc: A, count: usize) -> Result<Vec<bool, A>, AllocError>
    ensures { IfOk result (λ v. v.items ≡ replicate count false) }
{
    let mut heads = Vec::new(alloc);
    for _place in 0..count {
        heads.push(false)?;
    }
    Ok(heads)
}

impl<A: Allocator + Clone> Finder<A> {
    /// The state before the first of `count` steps.
    fn new(alloc: A, count: usize) -> Result<Finder<A>, AllocError>
        ensures state { IfOk result (λ s. IsFinding s) }
        ensures many { IfOk result (λ s. length s.at.items ≡ count) }
        ensures stops { IfOk result (λ s. s.stops.items ≡ []) }
        ensures found { IfOk result (λ s. ShowsFound nothing s) }
    {
        Ok(Finder {
            stops: Vec::new(alloc.clone()?),
            at: no_numbers(alloc.clone()?, count)?,
            base: 0,
            bases: Vec::new(alloc.clone()?),
            round: Vec::new(alloc.clone()?),
            heads: no_heads(alloc.clone()?, count)?,
            loops: no_numbers(alloc, count)?,
        })
    }
}

/// The heads and loops of a run that reaches its steps in these ways.
///
/// The work is linear in the steps: each puts at most one place on a way, and takes off what was put there.
pub(crate) fn find<A: Allocator + Clone>(
    alloc: A,
    comings: &[Coming],
) -> Result<Heads<A>, AllocError>
    requires few { length comings.now < 2 ^ 32 }
    requires places { All (λ c. c.place < length comings.now) comings.now }
    ensures heads { IfOk result (λ r. length r.heads.items ≡ length comings.now) }
    ensures loops { IfOk result (λ r. length r.loops.items ≡ length comings.now) }
    ensures lower { IfOk result (λ r. AreLower r.loops.items) }
    ensures found { IfOk result (λ r. AreFound r.heads.items r.loops.items (found_in comings.now)) }
{
    let mut finder = Finder::new(alloc, comings.len())?;
    for coming in comings {
        finder.go(coming.by)?;
        finder.come(coming.place)?;
    }
    Ok(Heads {
        heads: finder.heads,
        loops: finder.loops,
    })
}
