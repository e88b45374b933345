//! The functions of a run, with what their steps take.

ghost use Rattle.std.specs.Prelude.{◌≡◌, ◌≤◌, All, IfOk, IsPermutation, List, OnOk, length, map};
ghost use Rattle.std.specs.BTreeMap.{IsOrdered, values};
ghost use Rattle.std.specs.Ordering.{nat_cmp};
ghost use Rattle.tomex_rvexec.specs.declared.step.Step.{Step};
ghost use Rattle.tomex_symbols.specs.Functions.{AreNumbered};
ghost use Rattle.tomex_symbols.specs.declared.symbol.Symbol.{Symbol};
ghost use Rattle.tomex_functions.specs.ByFunction.{InOrder};
ghost use Rattle.tomex_functions.specs.Calls.{calls_in};
ghost use Rattle.tomex_functions.specs.Kept.{AreCalls, HasAddress, IsIndexOf, IsListing, row_of_group, sort_key};
ghost use Rattle.tomex_rvexec.specs.Run.{most_steps};

use crate::calls::{Calls, count_calls};
use crate::index::{Index, key_of, keys_of};
use std::alloc::{AllocError, Allocator};
use std::cmp::Reverse;
use tomex_config::Config;
use tomex_run_views::{Group, Sum, Tally, count_run};
use tomex_rvexec::Step;
use tomex_symbols::Symbol;

/// A function, or none, with what its steps take.
#[derive(Clone, Copy, Drop)]
pub struct Row {
    pub function: Option<Symbol>,
    pub calls: u64,
    pub sum: Sum,
}

/// The functions of a run in the order of a report.
#[derive(Drop)]
pub struct Listing<A: Allocator> {
    pub rows: Vec<Row, A>,
    /// The cycles after the last issue.
    pub drain: Sum,
    /// All steps, and the drain.
    pub total: Sum,
    /// The number of calls.
    pub calls: u64,
}

/// The row of the steps of one function.
fn row_of<A: Allocator + Clone>(group: &Group, index: &Index<A>, calls: &Calls<A>) -> Row
    ensures { (symbols : List Symbol) (steps : List Step) → IsIndexOf symbols steps index.now
        → AreCalls symbols steps calls.now → HasAddress group.now.first.pc steps
        → result ≡ row_of_group symbols (calls_in symbols steps) group.now }
{
    let function = index.function_at(group.first.pc);
    Row {
        function,
        calls: calls.of(key_of(&function)),
        sum: group.sum,
    }
}

/// The rows of the functions, by their keys.
fn rows_of<A: Allocator + Clone>(
    alloc: A,
    tally: &Tally<A>,
    index: &Index<A>,
    calls: &Calls<A>,
) -> Result<Vec<Row, A>, AllocError>
    ensures rows { IfOk result (λ rows. (symbols : List Symbol) (steps : List Step) → IsIndexOf symbols steps index.now
        → AreCalls symbols steps calls.now → All (λ group. HasAddress group.first.pc steps) (values tally.now.groups)
        → rows.items ≡ map (row_of_group symbols (calls_in symbols steps)) (values tally.now.groups)) }
    ensures order { OnOk result (IsOrdered nat_cmp tally.now.groups) }
{
    let mut rows = Vec::new(alloc);
    for group in tally.groups.values() {
        rows.push(row_of(group, index, calls))?;
    }
    Ok(rows)
}

/// What rows are ordered by: is there no function, the cycles, the greatest first, the address, and the number.
fn sort_key(row: &Row) -> (u8, Reverse<u64>, u32, u32)
    ensures { result ≡ sort_key row.now }
{
    let cycles = Reverse(row.sum.cycles);
    match row.function {
        Some(symbol) => (0, cycles, symbol.address, symbol.number),
        None => (1, cycles, 0, 0),
    }
}

/// Puts rows in the order of a report: those with the most cycles first, then by address and by number in the table,
/// and last that of steps without a function.
pub fn sort_rows<A: Allocator>(rows: &mut Vec<Row, A>)
    ensures moved { IsPermutation rows.old.items rows.new.items }
    ensures order { InOrder rows.new.items }
{
    rows.sort_unstable_by_key(|row| sort_key(row));
}

/// The functions of a run on a configuration.
pub fn listing_of<A: Allocator + Clone>(
    alloc: A,
    config: &Config,
    steps: &[Step],
    symbols: Vec<Symbol, A>,
) -> Result<Listing<A>, AllocError>
    requires few { length steps.now ≤ most_steps }
    requires numbered { AreNumbered symbols.items }
    ensures { IfOk result (IsListing symbols.items config.now steps.now) }
{
    let index = Index::new(alloc.clone()?, symbols, steps)?;
    let functions = index.functions_of(alloc.clone()?, steps)?;
    let keys = keys_of(alloc.clone()?, functions.as_slice())?;
    let calls = count_calls(alloc.clone()?, steps, functions.as_slice())?;
    let counted = count_run(alloc.clone()?, config, steps, keys.as_slice())?;
    let mut rows = rows_of(alloc, &counted.tally, &index, &calls)?;
    sort_rows(&mut rows);
    Ok(Listing {
        rows,
        drain: counted.only_drain(),
        total: counted.total(),
        calls: calls.all,
    })
}
