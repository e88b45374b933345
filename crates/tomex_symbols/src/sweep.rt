//! A sweep over addresses in ascending order, and over symbols in theirs.
ghost use Rattle.std.specs.Prelude.{◌≡◌, ◌≤◌, ◌<◌, ◌+◌, ◌++◌, [], ◌∷◌, length, ℕ, ◌-◌, ◌^◌, if◌then◌else◌, All, OnOk};
ghost use Rattle.std.specs.Prelude.{IfOk, take, drop, Some, None};
ghost use Rattle.tomex_symbols.specs.Functions.{AreNumbered, function_at, holds};
ghost use Rattle.tomex_symbols.specs.Sweep.{InOrder, IsSwept, if_at, is_unsized, last_of};

use crate::symbol::Symbol;
use std::alloc::{AllocError, Allocator};

/// What a sweep knows, at an address, about the symbols that begin up to it.
#[derive(Drop)]
pub struct Sweep<A: Allocator> {
    /// The number of symbols that begin up to it.
    pub begun: usize,
    /// Symbols with a size that haven't ended, the innermost last; below them there may be some
    /// that have.
    pub nested: Vec<Symbol, A>,
    /// The last one without a size.
    pub label: Option<Symbol>,
    /// Where the last one begins.
    pub latest: u32,
}

impl<A: Allocator> Sweep<A> {
    /// A sweep before the first address.
    pub fn new(alloc: A) -> Self
        ensures begun { result.begun ≡ 0 }
        ensures nested { result.nested.items ≡ [] }
        ensures label { result.label ≡ None }
        ensures latest { result.latest ≡ 0 }
    {
        Sweep {
            begun: 0,
            nested: Vec::new(alloc),
            label: None,
            latest: 0,
        }
    }

    /// Enters the next symbol.
    fn begin(&mut self, symbol: Symbol) -> Result<(), AllocError>
        requires { self.old.begun + 1 < 2 ^ 64 }
        ensures begun { OnOk result (self.new.begun ≡ self.old.begun + 1) }
        ensures nested { OnOk result (self.new.nested.items ≡ (if is_unsized symbol
            then self.old.nested.items else self.old.nested.items ++ symbol ∷ [])) }
        ensures label { OnOk result (self.new.label ≡ (if is_unsized symbol
            then Some symbol else self.old.label)) }
        ensures latest { OnOk result (self.new.latest ≡ symbol.address) }
    {
        if symbol.size == 0 {
            self.label = Some(symbol);
        } else {
            self.nested.push(symbol)?;
        }
        self.begun += 1;
        self.latest = symbol.address;
        Ok(())
    }

    /// Enters the symbols that begin up to `pc`.
    fn begin_up_to(&mut self, sorted: &[Symbol], pc: u32) -> Result<(), AllocError>
        requires order { InOrder sorted.now }
        requires swept { IsSwept sorted.now self.old.begun
            self.old.nested.items self.old.label self.old.latest pc }
        ensures swept { OnOk result
            (IsSwept sorted.now self.new.begun self.new.nested.items self.new.label self.new.latest pc) }
        ensures rest { OnOk result (All (λ s. pc < s.address) (drop self.new.begun sorted.now)) }
    {
        while self.begun < sorted.len() && sorted[self.begun].address <= pc {
            self.begin(sorted[self.begun])?;
        }
        Ok(())
    }

    /// The innermost symbol that holds the address. Drops symbols that end before it.
    fn innermost(&mut self, pc: u32) -> Option<Symbol>
        requires { All (λ s. s.address ≤ pc) self.old.nested.items }
        ensures value { result ≡ last_of (holds pc) self.old.nested.items }
        ensures begun { self.new.begun ≡ self.old.begun }
        ensures label { self.new.label ≡ self.old.label }
        ensures latest { self.new.latest ≡ self.old.latest }
        ensures address { All (λ s. s.address ≤ pc) self.new.nested.items }
        ensures nested { (q : ℕ) → pc ≤ q
            → last_of (holds q) self.new.nested.items ≡ last_of (holds q) self.old.nested.items }
    {
        while let Some(symbol) = self.nested.last() {
            if symbol.holds(pc) {
                return Some(*symbol);
            }
            self.nested.pop();
        }
        None
    }

    /// The last symbol without a size, if no other one begins after it.
    fn last_label(&self) -> Option<Symbol>
        ensures { result ≡ if_at self.now.latest self.now.label }
    {
        match self.label {
            Some(label) if label.address == self.latest => Some(label),
            _ => None,
        }
    }

    /// The function of an address, which is no less than those before it.
    pub fn function_at(&mut self, sorted: &[Symbol], pc: u32) -> Result<Option<Symbol>, AllocError>
        requires order { InOrder sorted.now }
        requires numbered { AreNumbered sorted.now }
        requires swept { IsSwept sorted.now self.old.begun
            self.old.nested.items self.old.label self.old.latest pc }
        ensures value { IfOk result (λ r. r ≡ function_at sorted.now pc) }
        ensures swept { OnOk result
            (IsSwept sorted.now self.new.begun self.new.nested.items self.new.label self.new.latest pc) }
    {
        self.begin_up_to(sorted, pc)?;
        match self.innermost(pc) {
            Some(symbol) => Ok(Some(symbol)),
            None => Ok(self.last_label()),
        }
    }
}
