//! Which new machines of a list are of use.

ghost use Rattle.std.specs.Prelude.{◌≡◌, ◌&&◌, not, IfOk, IsPermutation};
ghost use Rattle.std.specs.List.{AllPairs, filter, list_any};
ghost use Rattle.tomex_choices.specs.Passing.{AreUnbeaten, IsUpTo, stays_after};
ghost use Rattle.tomex_choices.specs.Savings.{is_as_good};

use crate::new_machine::NewMachine;
use std::alloc::{AllocError, Allocator};
use tomex_pareto::FrontRow;

/// Sorts new machines by cost, then cycles, then number; those that are equal so far by latency.
fn sort_machines<A: Allocator>(machines: &mut Vec<NewMachine, A>)
    ensures moved { IsPermutation machines.old.items machines.new.items }
    ensures order { AllPairs IsUpTo machines.new.items }
{
    machines.sort_unstable_by_key(|x| (x.cost, x.cycles, x.number, x.latency));
}

/// True if nothing beats a machine, and it isn't `last` again, the last one before it that stayed. Machines come by
/// cost, then cycles, then number.
fn stays(last: Option<NewMachine>, x: NewMachine) -> bool
    ensures { result ≡ stays_after last x }
{
    match last {
        None => true,
        Some(last) => {
            x.cycles < last.cycles
                || (x.cycles == last.cycles
                    && x.cost == last.cost
                    && x.number == last.number
                    && x.latency != last.latency)
        }
    }
}

/// The new machines that no other one beats, each once.
///
/// A sort and one pass: a machine stays if it takes fewer cycles than every one before it, or differs from the last one
/// that stayed only in its latency.
pub(crate) fn unbeaten<A: Allocator>(
    alloc: A,
    mut machines: Vec<NewMachine, A>,
) -> Result<Vec<NewMachine, A>, AllocError>
    ensures { IfOk result (λ v. AreUnbeaten machines.items v.items) }
{
    sort_machines(&mut machines);
    let mut unbeaten = Vec::new(alloc);
    let mut last = None;
    for x in &machines {
        if stays(last, *x) {
            unbeaten.push(*x)?;
            last = Some(*x);
        }
    }
    Ok(unbeaten)
}

/// True if some row costs no more than a machine and takes no more cycles.
fn has_as_good(rows: &[FrontRow], x: NewMachine) -> bool
    ensures { result ≡ list_any (is_as_good x) rows.now }
{
    rows.iter()
        .any(|r| r.cost <= x.cost && r.cycles <= x.cycles)
}

/// Those that no row is as good as.
pub(crate) fn useful<A: Allocator>(
    alloc: A,
    rows: &[FrontRow],
    unbeaten: &[NewMachine],
) -> Result<Vec<NewMachine, A>, AllocError>
    ensures { IfOk result (λ v. v.items ≡ filter (λ x. not (list_any (is_as_good x) rows.now)) unbeaten.now) }
{
    let mut useful = Vec::new(alloc);
    for x in unbeaten {
        if !has_as_good(rows, *x) {
            useful.push(*x)?;
        }
    }
    Ok(useful)
}
