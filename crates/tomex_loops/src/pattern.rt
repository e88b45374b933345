//! What a visit's rounds repeat.

ghost use Rattle.std.specs.Prelude.{◌≡◌, ◌+◌, ◌/◌, ◌<◌, ◌≤◌, ◌↔◌, ℕ, length, slice_index, IfOk, IfSome, IsTrue};
ghost use Rattle.std.specs.Prelude.{MatchOption};
ghost use Rattle.tomex_loops.specs.Pattern.{AreRepeated, HasNoPattern, IsLeastTurn, IsPattern, IsPatternOf};
ghost use Rattle.tomex_loops.specs.Pattern.{IsPeriod, reads_less, second_half, turn};

use std::alloc::{AllocError, Allocator};

/// True if each round, after the first `period`, takes as much as the one a period before it.
fn is_repeated(cycles: &[u64], period: usize) -> bool
    requires { period ≤ length cycles.now }
    ensures { IsTrue result ↔ AreRepeated period cycles.now }
{
    for k in 0..cycles.len() - period {
        if cycles[k + period] != cycles[k] {
            return false;
        }
    }
    true
}

/// The least period of these rounds.
fn period_of(cycles: &[u64]) -> Option<usize>
    ensures { MatchOption result ((q : ℕ) → IsPeriod q cycles.now → ⊥)
        (λ p. IsPeriod p cycles.now × ((q : ℕ) → q < p → IsPeriod q cycles.now → ⊥)) }
{
    for period in 1..17usize {
        if period <= cycles.len() / 2 && is_repeated(cycles, period) {
            return Some(period);
        }
    }
    None
}

/// The number at a place of the list that begins at `start` and goes on with what is before it.
fn turned_at(numbers: &[u64], start: usize, place: usize) -> u64
    requires start { start ≤ length numbers.now }
    requires place { place < length numbers.now }
    ensures { result ≡ slice_index (turn start numbers.now) place }
{
    let after = numbers.len() - start;
    if place < after {
        numbers[start + place]
    } else {
        numbers[place - after]
    }
}

/// True if the turn that begins at `a` reads less than the one that begins at `b`.
fn reads_less(numbers: &[u64], a: usize, b: usize) -> bool
    requires a { a ≤ length numbers.now }
    requires b { b ≤ length numbers.now }
    ensures { result ≡ reads_less (turn a numbers.now) (turn b numbers.now) }
{
    for k in 0..numbers.len() {
        let x = turned_at(numbers, a, k);
        let y = turned_at(numbers, b, k);
        if x != y {
            return x < y;
        }
    }
    false
}

/// The place at which the turn begins that reads least.
fn least_turn(numbers: &[u64]) -> usize
    ensures least { IsLeastTurn numbers.now result }
    ensures within { result ≤ length numbers.now }
{
    let mut least = 0;
    for k in 0..numbers.len() {
        if reads_less(numbers, k, least) {
            least = k;
        }
    }
    least
}

/// A copy of the numbers from a place on, and those before it after them.
fn turned<A: Allocator>(alloc: A, numbers: &[u64], start: usize) -> Result<Vec<u64, A>, AllocError>
    requires { start ≤ length numbers.now }
    ensures { IfOk result (λ v. v.items ≡ turn start numbers.now) }
{
    let mut counts = Vec::new(alloc);
    counts.extend_from_slice(&numbers[start..])?;
    counts.extend_from_slice(&numbers[..start])?;
    Ok(counts)
}

/// The counts of the least period of these rounds, turned so that they read least.
fn pattern_in<A: Allocator>(alloc: A, cycles: &[u64]) -> Result<Option<Vec<u64, A>>, AllocError>
    ensures { IfOk result (λ found. MatchOption found ((q : ℕ) → IsPeriod q cycles.now → ⊥)
        (λ counts. IsPatternOf cycles.now counts.items)) }
{
    let Some(period) = period_of(cycles) else {
        return Ok(None);
    };
    let counts = &cycles[..period];
    Ok(Some(turned(alloc, counts, least_turn(counts))?))
}

/// The second half of a visit's rounds.
fn second_half(cycles: &[u64]) -> &[u64]
    ensures { result.now ≡ second_half cycles.now }
{
    &cycles[cycles.len() / 2..]
}

/// What the rounds of a visit with these cycles repeat in their second half: the counts of the least period of at most
/// 16 rounds, turned so that they read least. `None` if they repeat nothing.
///
/// The work is at most 16 looks at each round.
pub fn pattern_of<A: Allocator>(alloc: A, cycles: &[u64]) -> Result<Option<Vec<u64, A>>, AllocError>
    ensures { IfOk result (λ found. MatchOption found (HasNoPattern cycles.now)
        (λ counts. IsPattern cycles.now counts.items)) }
{
    pattern_in(alloc, second_half(cycles))
}
