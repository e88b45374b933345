//! What the steps of a run's loops take.

ghost use Rattle.std.specs.Prelude.{◌≡◌, ◌<◌, ◌≤◌, ◌*◌, ◌^◌, ℕ, All, IfOk, is_none, length, map, slice_index, sum};
ghost use Rattle.std.specs.List.Sorted.{IsNonDecreasingBy};
ghost use Rattle.tomex_rvexec.specs.Run.{most_steps};
ghost use Rattle.tomex_timing.specs.Search.{times_in};
ghost use Rattle.tomex_stretches.specs.Accounts.{own_in};
ghost use Rattle.tomex_stretches.specs.Cycles.{sum_where};
ghost use Rattle.tomex_loops.specs.Sound.{AreEnds, IsOneOf};
ghost use Rattle.tomex_loop_sums.specs.ByLoop.{keys_of, spans_by};
ghost use Rattle.tomex_loop_sums.specs.Columns.{AreSpent};
ghost use Rattle.tomex_loop_sums.specs.Spans.{sum_in};

use crate::spans::sums_in_spans;
use crate::visited::spans_of;
use std::alloc::{AllocError, Allocator};
use tomex_config::Config;
use tomex_loops::Visit;
use tomex_rvexec::Step;
use tomex_stretches::{Accounts, accounts_of, own_cycles};
use tomex_timing::{Run, Times};

/// What the steps of each loop take, by its number.
#[derive(Drop)]
pub struct Spent<A: Allocator> {
    /// How many steps are in a visit.
    pub steps: Vec<u64, A>,
    /// Their cycles.
    pub cycles: Vec<u64, A>,
    /// The cycles of the steps whose innermost loop it is, and of their floors.
    pub accounts: Accounts<A>,
}

/// A one for each step.
fn ones<A: Allocator>(alloc: A, steps: &[Step]) -> Result<Vec<u64, A>, AllocError>
    ensures { IfOk result (λ v. v.items ≡ map (λ s. 1) steps.now) }
{
    let mut ones = Vec::new(alloc);
    for _ in steps {
        ones.push(1)?;
    }
    Ok(ones)
}

/// The cycles of a run's steps.
fn own_of<A: Allocator, B: Allocator>(
    alloc: A,
    run: &Run<B>,
    config: &Config,
    times: &[Times],
) -> Result<Vec<u64, A>, AllocError>
    requires few { length run.now ≤ most_steps }
    requires times { times.now ≡ times_in config.now run.now }
    ensures exact { IfOk result (λ v. v.items ≡ own_in config.now run.now) }
    ensures many { IfOk result (λ v. length v.items ≡ length run.now) }
    ensures most { IfOk result (λ v. sum v.items ≤ 67 * length run.now) }
{
    config.keeps_limits();
    own_cycles(alloc, times)
}

/// For each of `count` loops the sum of the numbers of those steps that are in a visit of it.
fn sums_in_visits<A: Allocator + Clone>(
    alloc: A,
    count: usize,
    visits: &[Visit],
    ends: &[Option<u32>],
    numbers: &[u64],
) -> Result<Vec<u64, A>, AllocError>
    requires steps { length numbers.now < 2 ^ 32 }
    requires few { sum numbers.now < 2 ^ 63 }
    requires loops { All (λ v. v.number < count) visits.now }
    requires order { IsNonDecreasingBy (λ v. v.first) visits.now }
    requires first { All (λ v. v.first < length numbers.now) visits.now }
    requires many_ends { length ends.now ≡ length visits.now }
    requires ends { AreEnds (length numbers.now) visits.now ends.now }
    ensures count { IfOk result (λ sums. length sums.items ≡ count) }
    ensures sums { IfOk result (λ sums. (n : ℕ) → n < count → slice_index sums.items n
        ≡ sum_in n (spans_by (length numbers.now) visits.now ends.now) numbers.now) }
{
    let spans = spans_of(alloc.clone()?, visits, ends, numbers.len() as u32)?;
    sums_in_spans(alloc, count, &spans, numbers)
}

/// What the steps of each of `count` loops of a run take on a configuration, given the times of the run's steps, the
/// visits of its loops, the step before which each of them ends, and for each step its innermost visit and the loop of
/// that one.
pub fn spent_of<A: Allocator + Clone, B: Allocator>(
    alloc: A,
    run: &Run<B>,
    config: &Config,
    times: &[Times],
    visits: &[Visit],
    ends: &[Option<u32>],
    innermost: &[Option<u32>],
    keys: &[Option<u32>],
    count: usize,
) -> Result<Spent<A>, AllocError>
    requires few { length run.now ≤ most_steps }
    requires times { times.now ≡ times_in config.now run.now }
    requires loops { All (λ v. v.number < count) visits.now }
    requires order { IsNonDecreasingBy (λ v. v.first) visits.now }
    requires first { All (λ v. v.first < length run.now) visits.now }
    requires many_ends { length ends.now ≡ length visits.now }
    requires ends { AreEnds (length run.now) visits.now ends.now }
    requires many_innermost { length innermost.now ≡ length run.now }
    requires innermost { All (IsOneOf (length visits.now)) innermost.now }
    requires keys { keys.now ≡ keys_of visits.now innermost.now }
    ensures { IfOk result (λ s. AreSpent config.now run.now
        (spans_by (length run.now) visits.now ends.now) innermost.now keys.now count s) }
{
    let ones = ones(alloc.clone()?, run.steps())?;
    let own = own_of(alloc.clone()?, run, config, times)?;
    Ok(Spent {
        steps: sums_in_visits(alloc.clone()?, count, visits, ends, &ones)?,
        cycles: sums_in_visits(alloc.clone()?, count, visits, ends, &own)?,
        accounts: accounts_of(alloc, run, config, times, innermost, keys, count)?,
    })
}

/// The number of steps outside of all loops, given the loop of each step.
pub fn steps_without(keys: &[Option<u32>]) -> u64
    ensures { result ≡ sum_where is_none keys.now (map (λ k. 1) keys.now) }
{
    let mut count = 0;
    for key in keys {
        if key.is_none() {
            count += 1;
        }
    }
    count
}
