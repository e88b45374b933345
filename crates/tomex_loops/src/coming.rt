//! How a run reaches each of its steps.

ghost use Rattle.std.specs.Prelude.{◌≡◌, ℕ, ◌+◌, ◌^◌, ◌<◌, length, reverse, slice_index_or, All, IfOk};
ghost use Rattle.tomex_rvexec.specs.declared.step.Step.{Step};
ghost use Rattle.tomex_loops.specs.Calls.{address_after, awaited_after, comings_of};
ghost use Rattle.tomex_loops.specs.Calls.{is_jalr, is_jump, move_to, place_of};
ghost use Rattle.std.specs.BTreeMap.{get};
ghost use Rattle.std.specs.Ordering.{nat_cmp};
ghost use Rattle.tomex_loops.specs.Places.{known_place};

use std::alloc::{AllocError, Allocator};
use std::collections::BTreeMap;
use tomex_rvdec::Op;
use tomex_rvexec::Step;

/// How a run goes from one step to the next.
#[derive(Clone, Copy, PartialEq, Eq)]
pub enum Move {
    /// In the same call.
    On,
    /// Into a new call.
    Call,
    /// Back to the address after the latest call that isn't over.
    Return,
}

/// How a run reaches a step.
#[derive(Clone, Copy, PartialEq, Eq)]
pub struct Coming {
    pub by: Move,
    /// The number of the first step at the same address, counted from 0.
    pub place: u32,
}

fn is_jalr(op: Op) -> bool
    ensures { result ≡ is_jalr op }
{
    matches!(op, Op::Jalr)
}

fn is_jump(op: Op) -> bool
    ensures { result ≡ is_jump op }
{
    matches!(op, Op::Jal | Op::Jalr)
}

/// The address after a step.
fn address_after(step: &Step) -> u32
    ensures { result ≡ address_after step.now }
{
    step.pc.wrapping_add(4)
}

/// How a run goes from one step to the next, if these are the addresses that calls return to, the latest last.
fn move_to(awaited: &[u32], before: &Step, step: &Step) -> Move
    ensures { result ≡ move_to (reverse awaited.now) before.now step.now }
{
    let op = before.instr.op();
    if is_jalr(op) && awaited.last().copied() == Some(step.pc) {
        return Move::Return;
    }
    let is_elsewhere = step.pc != address_after(before);
    if is_jump(op) && before.dest().is_some() && is_elsewhere {
        return Move::Call;
    }
    Move::On
}

/// Goes from one step to the next, over the addresses that calls return to, the latest last.
fn go<A: Allocator>(
    awaited: &mut Vec<u32, A>,
    before: &Step,
    step: &Step,
) -> Result<Move, AllocError>
    ensures by { IfOk result (λ m. m ≡ move_to (reverse awaited.old.items) before.now step.now) }
    ensures awaited { IfOk result
        (λ m. reverse awaited.new.items ≡ awaited_after m (reverse awaited.old.items) before.now) }
{
    let by = move_to(awaited, before, step);
    match by {
        Move::On => {}
        Move::Call => awaited.push(address_after(before))?,
        Move::Return => {
            awaited.pop();
        }
    }
    Ok(by)
}

/// The place of step `k`, given the places of the addresses of the steps before it.
fn place<A: Allocator + Clone>(
    places: &mut BTreeMap<u32, u32, A>,
    steps: &[Step],
    k: usize,
) -> Result<u32, AllocError>
    requires within { k < length steps.now }
    requires few { length steps.now < 2 ^ 32 }
    requires known { (a : ℕ) → get nat_cmp places.old a ≡ known_place steps.now k a }
    ensures below { IfOk result (λ p. p < length steps.now) }
    ensures place { IfOk result (λ p. (z : Step) → p ≡ place_of steps.now (slice_index_or steps.now k z).pc) }
    ensures known { IfOk result (λ _. (a : ℕ) → get nat_cmp places.new a ≡ known_place steps.now (k + 1) a) }
{
    let address = steps[k].pc;
    if let Some(place) = places.get(&address).copied() {
        return Ok(place);
    }
    places.insert(address, k as u32)?;
    Ok(k as u32)
}

/// How a run reaches each of its steps.
///
/// The work is that of looking each step's address up in a map.
pub(crate) fn comings<A: Allocator + Clone>(
    alloc: A,
    steps: &[Step],
) -> Result<Vec<Coming, A>, AllocError>
    requires { length steps.now < 2 ^ 32 }
    ensures exact { IfOk result (λ v. v.items ≡ comings_of steps.now) }
    ensures many { IfOk result (λ v. length v.items ≡ length steps.now) }
    ensures places { IfOk result (λ v. All (λ c. c.place < length v.items) v.items) }
{
    let mut places = BTreeMap::new(alloc.clone()?);
    let mut awaited = Vec::new(alloc.clone()?);
    let mut result = Vec::new(alloc);
    if steps.is_empty() {
        return Ok(result);
    }
    let first = place(&mut places, steps, 0)?;
    result.push(Coming {
        by: Move::On,
        place: first,
    })?;
    for k in 1..steps.len() {
        let by = go(&mut awaited, &steps[k - 1], &steps[k])?;
        let place = place(&mut places, steps, k)?;
        result.push(Coming { by, place })?;
    }
    Ok(result)
}
