//! The functions of a run's steps.

ghost use Rattle.std.specs.Prelude.{◌≡◌, IfOk, IsPermutation, List, map};
ghost use Rattle.std.specs.List.Sorted.{IsNonDecreasing};
ghost use Rattle.tomex_rvexec.specs.declared.step.Step.{Step};
ghost use Rattle.tomex_symbols.specs.Functions.{AreNumbered, function_at};
ghost use Rattle.tomex_symbols.specs.declared.symbol.Symbol.{Symbol};
ghost use Rattle.tomex_run_views.specs.ByPlace.{pc_of};
ghost use Rattle.tomex_functions.specs.Functions.{function_of, key_of};
ghost use Rattle.tomex_functions.specs.Kept.{HasAddress, IsIndexOf};

use std::alloc::{AllocError, Allocator};
use tomex_rvexec::Step;
use tomex_symbols::{Symbol, functions_at};

/// The function of each address of a run.
#[derive(Drop)]
pub struct Index<A: Allocator> {
    /// The addresses of its steps, in order.
    pub addresses: Vec<u32, A>,
    /// Their functions.
    pub functions: Vec<Option<Symbol>, A>,
}

/// The addresses of steps, in order.
fn sorted_addresses<A: Allocator>(alloc: A, steps: &[Step]) -> Result<Vec<u32, A>, AllocError>
    ensures order { IfOk result (λ v. IsNonDecreasing v.items) }
    ensures those { IfOk result (λ v. IsPermutation (map pc_of steps.now) v.items) }
{
    let mut addresses = Vec::new(alloc);
    for step in steps {
        addresses.push(step.pc)?;
    }
    addresses.sort_unstable();
    Ok(addresses)
}

impl<A: Allocator + Clone> Index<A> {
    /// The functions among these symbols of the addresses of a run's steps: two sorts, and one pass over both.
    pub fn new(alloc: A, symbols: Vec<Symbol, A>, steps: &[Step]) -> Result<Index<A>, AllocError>
        requires { AreNumbered symbols.items }
        ensures { IfOk result (λ index. IsIndexOf symbols.items steps.now index) }
    {
        let addresses = sorted_addresses(alloc.clone()?, steps)?;
        let functions = functions_at(alloc, symbols, addresses.as_slice())?;
        Ok(Index {
            addresses,
            functions,
        })
    }
}

impl<A: Allocator> Index<A> {
    /// The function of an address that a step has.
    pub fn function_at(&self, pc: u32) -> Option<Symbol>
        ensures { (symbols : List Symbol) (steps : List Step) → IsIndexOf symbols steps self.now
            → HasAddress pc steps → result ≡ function_at symbols pc }
    {
        match self.addresses.as_slice().binary_search(&pc) {
            Ok(place) if place < self.functions.len() => self.functions[place],
            _ => None,
        }
    }

    /// The function of each step.
    pub fn functions_of<B: Allocator>(
        &self,
        alloc: B,
        steps: &[Step],
    ) -> Result<Vec<Option<Symbol>, B>, AllocError>
        ensures { IfOk result (λ v. (symbols : List Symbol) → IsIndexOf symbols steps.now self.now
            → v.items ≡ map (function_of symbols) steps.now) }
    {
        let mut functions = Vec::new(alloc);
        for step in steps {
            functions.push(self.function_at(step.pc))?;
        }
        Ok(functions)
    }
}

/// A number for each function, the one in the table and one more; 0 is that of steps without one.
pub fn key_of(function: &Option<Symbol>) -> u64
    ensures { result ≡ key_of function.now }
{
    match function {
        Some(symbol) => u64::from(symbol.number) + 1,
        None => 0,
    }
}

/// The keys of these functions.
pub fn keys_of<A: Allocator>(
    alloc: A,
    functions: &[Option<Symbol>],
) -> Result<Vec<u64, A>, AllocError>
    ensures { IfOk result (λ v. v.items ≡ map key_of functions.now) }
{
    let mut keys = Vec::new(alloc);
    for function in functions {
        keys.push(key_of(function))?;
    }
    Ok(keys)
}
