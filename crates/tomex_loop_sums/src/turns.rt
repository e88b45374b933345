//! The rounds of a run's loops.

ghost use Rattle.std.specs.Prelude.{◌≡◌, ◌<◌, ◌^◌, ℕ, [], All, IfOk, IfSome, None, length, map};
ghost use Rattle.std.specs.Prelude.{slice_index, slice_index_or};
ghost use Rattle.std.specs.Option.{option_map};
ghost use Rattle.tomex_loops.specs.Sound.{IsRound};
ghost use Rattle.tomex_loop_sums.specs.ByLoop.{round_cycles};
ghost use Rattle.tomex_loop_sums.specs.Columns.{AreTurns, CountsAre, LongestRepeats, RepeatsOf};
ghost use Rattle.tomex_loop_sums.specs.Groups.{groups_by};

use crate::groups::grouped;
use crate::longest::longest_of;
use crate::visited::loops_of;
use std::alloc::{AllocError, Allocator};
use tomex_loops::{Counts, Round, Visit, count_rounds, pattern_of};
use tomex_timing::Times;

/// What is known of the rounds of each loop of a run, by its number.
#[derive(Drop)]
pub struct Turns<A: Allocator> {
    /// How many it has.
    pub rounds: Vec<u32, A>,
    /// What is counted of them; `None` if there are none.
    pub counts: Vec<Option<Counts>, A>,
    /// What those of its longest visit repeat, if they repeat anything.
    pub patterns: Vec<Option<Vec<u64, A>>, A>,
}

/// The cycles of each round: from one issue at the head to the next.
fn round_cycles<A: Allocator>(
    alloc: A,
    rounds: &[Round],
    times: &[Times],
) -> Result<Vec<u64, A>, AllocError>
    requires from { All (λ r. r.from < length times.now) rounds.now }
    requires to { All (λ r. r.to < length times.now) rounds.now }
    ensures { IfOk result (λ v. v.items ≡ round_cycles (map (λ t. t.issue) times.now) rounds.now) }
{
    let mut cycles = Vec::new(alloc);
    for round in rounds {
        let from = times[round.from as usize].issue;
        let to = times[round.to as usize].issue;
        cycles.push(to.saturating_sub(from))?;
    }
    Ok(cycles)
}

/// The visit of each round.
fn visits_of<A: Allocator>(alloc: A, rounds: &[Round]) -> Result<Vec<u32, A>, AllocError>
    ensures { IfOk result (λ v. v.items ≡ map (λ r. r.visit) rounds.now) }
{
    let mut visits = Vec::new(alloc);
    for round in rounds {
        visits.push(round.visit)?;
    }
    Ok(visits)
}

/// The loop of each round, given that of each visit.
fn round_loops<A: Allocator>(
    alloc: A,
    rounds: &[Round],
    loops: &[u32],
) -> Result<Vec<u32, A>, AllocError>
    requires { All (λ r. r.visit < length loops.now) rounds.now }
    ensures { IfOk result (λ v. v.items ≡ map (λ r. slice_index loops.now r.visit) rounds.now) }
{
    let mut found = Vec::new(alloc);
    for round in rounds {
        found.push(loops[round.visit as usize])?;
    }
    Ok(found)
}

/// The cycles of rounds by a key, which is less than `count`: for each key those of the rounds with it, in order.
fn cycles_by<A: Allocator + Clone>(
    alloc: A,
    count: usize,
    keys: &[u32],
    cycles: &[u64],
) -> Result<Vec<Vec<u64, A>, A>, AllocError>
    requires keys { All (λ key. key < count) keys.now }
    requires pairs { length keys.now ≡ length cycles.now }
    ensures { IfOk result (λ groups. map (λ group. group.items) groups.items
        ≡ groups_by count keys.now cycles.now) }
{
    grouped(alloc, count, keys, cycles)
}

/// How many numbers are in each group.
fn lengths_of<A: Allocator, B: Allocator>(
    alloc: A,
    groups: &[Vec<u64, B>],
) -> Result<Vec<u32, A>, AllocError>
    requires { All (λ numbers. length numbers < 2 ^ 32) (map (λ group. group.items) groups.now) }
    ensures { IfOk result (λ v. v.items ≡ map length (map (λ group. group.items) groups.now)) }
{
    let mut lengths = Vec::new(alloc);
    for group in groups {
        lengths.push(group.len() as u32)?;
    }
    Ok(lengths)
}

/// What is counted of the rounds of each loop. Their cycles are left in order.
fn counts_of<A: Allocator, B: Allocator>(
    alloc: A,
    groups: &mut [Vec<u64, B>],
) -> Result<Vec<Option<Counts>, A>, AllocError>
    ensures count { IfOk result (λ v. length v.items ≡ length groups.old) }
    ensures counts { IfOk result (λ v. (n : ℕ) → n < length groups.old → CountsAre
        (slice_index_or (map (λ group. group.items) groups.old) n []) (slice_index_or v.items n None)) }
{
    let mut counts = Vec::new(alloc);
    for group in groups.iter_mut() {
        counts.push(count_rounds(group))?;
    }
    Ok(counts)
}

/// What the rounds of a visit repeat, if there is one; those of all visits are given.
fn pattern_in<A: Allocator, B: Allocator>(
    alloc: A,
    rounds: &[Vec<u64, B>],
    visit: Option<u32>,
) -> Result<Option<Vec<u64, A>>, AllocError>
    requires { IfSome visit (λ v. v < length rounds.now) }
    ensures { IfOk result (λ found. RepeatsOf (map (λ group. group.items) rounds.now) visit
        (option_map (λ c. c.items) found)) }
{
    match visit {
        Some(visit) => pattern_of(alloc, &rounds[visit as usize]),
        None => Ok(None),
    }
}

/// What the rounds of some visits repeat; there may be none.
fn patterns_in<A: Allocator + Clone>(
    alloc: A,
    rounds: &[Vec<u64, A>],
    visits: &[Option<u32>],
) -> Result<Vec<Option<Vec<u64, A>>, A>, AllocError>
    requires { All (λ visit. IfSome visit (λ v. v < length rounds.now)) visits.now }
    ensures count { IfOk result (λ v. length v.items ≡ length visits.now) }
    ensures patterns { IfOk result (λ found. (n : ℕ) → n < length visits.now → RepeatsOf
        (map (λ group. group.items) rounds.now) (slice_index_or visits.now n None)
        (option_map (λ c. c.items) (slice_index_or found.items n None))) }
{
    let mut patterns = Vec::new(alloc.clone()?);
    for visit in visits {
        patterns.push(pattern_in(alloc.clone()?, rounds, *visit)?)?;
    }
    Ok(patterns)
}

/// What the rounds of each loop's longest visit repeat, given the loop of each visit and the cycles of each round.
fn patterns_of<A: Allocator + Clone>(
    alloc: A,
    count: usize,
    loops: &[u32],
    rounds: &[Round],
    cycles: &[u64],
) -> Result<Vec<Option<Vec<u64, A>>, A>, AllocError>
    requires loops { All (λ n. n < count) loops.now }
    requires visits { All (λ r. r.visit < length loops.now) rounds.now }
    requires pairs { length cycles.now ≡ length rounds.now }
    requires few_visits { length loops.now < 2 ^ 32 }
    requires few_rounds { length rounds.now < 2 ^ 32 }
    ensures count { IfOk result (λ v. length v.items ≡ count) }
    ensures patterns { IfOk result (λ v. (n : ℕ) → n < count → LongestRepeats n loops.now
        (map (λ r. r.visit) rounds.now) cycles.now (option_map (λ c. c.items) (slice_index_or v.items n None))) }
{
    let visits = visits_of(alloc.clone()?, rounds)?;
    let groups = cycles_by(alloc.clone()?, loops.len(), &visits, cycles)?;
    let lengths = lengths_of(alloc.clone()?, &groups)?;
    let longest = longest_of(alloc.clone()?, count, loops, &lengths)?;
    patterns_in(alloc, &groups, &longest)
}

/// What is known of the rounds of each of `count` loops of a run, given its visits, its rounds, and the times of its
/// steps.
pub fn turns_of<A: Allocator + Clone>(
    alloc: A,
    visits: &[Visit],
    rounds: &[Round],
    count: usize,
    times: &[Times],
) -> Result<Turns<A>, AllocError>
    requires loops { All (λ v. v.number < count) visits.now }
    requires rounds { All (IsRound (length visits.now) (length times.now)) rounds.now }
    requires few_visits { length visits.now < 2 ^ 32 }
    requires few_rounds { length rounds.now < 2 ^ 32 }
    ensures { IfOk result (λ t. AreTurns (map (λ t. t.issue) times.now) visits.now rounds.now count t) }
{
    let cycles = round_cycles(alloc.clone()?, rounds, times)?;
    let loops = loops_of(alloc.clone()?, visits)?;
    let patterns = patterns_of(alloc.clone()?, count, &loops, rounds, &cycles)?;
    let keys = round_loops(alloc.clone()?, rounds, &loops)?;
    let mut groups = cycles_by(alloc.clone()?, count, &keys, &cycles)?;
    let rounds = lengths_of(alloc.clone()?, &groups)?;
    let counts = counts_of(alloc, &mut groups)?;
    Ok(Turns {
        rounds,
        counts,
        patterns,
    })
}
