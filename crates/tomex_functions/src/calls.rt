//! The calls of functions.

ghost use Rattle.std.specs.Prelude.{◌≡◌, ◌<◌, ◌≤◌, ◌==◌, ◌&&◌, ◌||◌, ◌+◌, ◌^◌, if◌then◌else◌, not, is_some};
ghost use Rattle.std.specs.Prelude.{unwrap_or, IfOk, OnOk, ℕ, List, None, length, map, slice_index_or};
ghost use Rattle.std.specs.BTreeMap.{get};
ghost use Rattle.std.specs.Ordering.{nat_cmp};
ghost use Rattle.tomex_rvexec.specs.Steps.{step_dest};
ghost use Rattle.tomex_rvexec.specs.declared.step.Step.{Step};
ghost use Rattle.tomex_symbols.specs.declared.symbol.Symbol.{Symbol};
ghost use Rattle.tomex_functions.specs.Calls.{begins, is_call, is_jump};
ghost use Rattle.tomex_functions.specs.Kept.{AreCalls, before_at};
ghost use Rattle.tomex_functions.specs.Functions.{function_of, key_of};
ghost use Rattle.tomex_rvexec.specs.Run.{most_steps};

use crate::index::key_of;
use std::alloc::{AllocError, Allocator};
use std::collections::BTreeMap;
use tomex_rvdec::Op;
use tomex_rvexec::Step;
use tomex_symbols::Symbol;

/// The number of calls of each function, by its key, and of all.
#[derive(Drop)]
pub struct Calls<A: Allocator> {
    pub by_key: BTreeMap<u64, u64, A>,
    pub all: u64,
}

/// True if the step jumps, whatever its operands are.
fn is_jump(step: &Step) -> bool
    ensures { result ≡ is_jump step.now.instr.op }
{
    matches!(step.instr.op(), Op::Jal | Op::Jalr)
}

/// True if the address is the first one of the function.
fn begins(pc: u32, function: &Option<Symbol>) -> bool
    ensures { result ≡ begins pc function.now }
{
    match function {
        Some(symbol) => symbol.address == pc,
        None => false,
    }
}

/// True if a step makes a call of the next one, should that be the first of its function: it jumps, and leaves a
/// return address or goes to another function.
fn leads_to_call(step: &Step, function: &Option<Symbol>, next: &Option<Symbol>) -> bool
    ensures { result ≡ is_jump step.now.instr.op
        && (is_some (step_dest step.now) || not (key_of function.now == key_of next.now)) }
{
    is_jump(step) && (step.dest().is_some() || key_of(function) != key_of(next))
}

/// True if a step calls its function.
fn is_call(steps: &[Step], functions: &[Option<Symbol>], index: usize) -> bool
    requires pairs { length functions.now ≡ length steps.now }
    requires place { index < length steps.now }
    ensures { (symbols : List Symbol) (d : Step) → functions.now ≡ map (function_of symbols) steps.now
        → result ≡ is_call symbols (before_at None index steps.now) (slice_index_or steps.now index d) }
{
    if !begins(steps[index].pc, &functions[index]) {
        return false;
    }
    if index == 0 {
        return true;
    }
    leads_to_call(&steps[index - 1], &functions[index - 1], &functions[index])
}

impl<A: Allocator + Clone> Calls<A> {
    /// The number of calls of the function with this key.
    pub fn of(&self, key: u64) -> u64
        ensures { result ≡ unwrap_or (get nat_cmp self.now.by_key key) 0 }
    {
        match self.by_key.get(&key) {
            Some(count) => *count,
            None => 0,
        }
    }

    /// Counts a call of the function with this key.
    fn count(&mut self, key: u64) -> Result<(), AllocError>
        requires fits { unwrap_or (get nat_cmp self.old.by_key key) 0 < 2 ^ 63 }
        requires all { self.old.all < 2 ^ 63 }
        ensures by_key { OnOk result ((k : ℕ) → unwrap_or (get nat_cmp self.new.by_key k) 0
            ≡ unwrap_or (get nat_cmp self.old.by_key k) 0 + (if key == k then 1 else 0)) }
        ensures all { OnOk result (self.new.all ≡ self.old.all + 1) }
    {
        *self.by_key.entry(key)?.or_insert(0) += 1;
        self.all += 1;
        Ok(())
    }
}

/// Counts the calls of functions in a run.
pub fn count_calls<A: Allocator + Clone>(
    alloc: A,
    steps: &[Step],
    functions: &[Option<Symbol>],
) -> Result<Calls<A>, AllocError>
    requires few { length steps.now ≤ most_steps }
    requires functions { (symbols : List Symbol) × (functions.now ≡ map (function_of symbols) steps.now) }
    ensures { IfOk result (λ calls. (symbols : List Symbol) → functions.now ≡ map (function_of symbols) steps.now
        → AreCalls symbols steps.now calls) }
{
    let mut calls = Calls {
        by_key: BTreeMap::new(alloc),
        all: 0,
    };
    for (index, function) in functions.iter().enumerate() {
        if is_call(steps, functions, index) {
            calls.count(key_of(function))?;
        }
    }
    Ok(calls)
}
