//! The functions of addresses.
ghost use Rattle.std.specs.Prelude.{◌≡◌, ◌≤◌, IfOk, map};
ghost use Rattle.std.specs.List.Sorted.{IsNonDecreasing};
ghost use Rattle.tomex_symbols.specs.Functions.{AreNumbered, function_at};

use crate::order::sort_symbols;
use crate::sweep::Sweep;
use crate::symbol::Symbol;
use std::alloc::{AllocError, Allocator};

/// The function of each address. The addresses must rise; the symbols, as
/// [`symbols`](crate::symbols) gives them, may be in any order. A sort and one pass over both:
/// nothing is quadratic, however symbols overlap.
pub fn functions_at<A: Allocator + Clone>(
    alloc: A,
    mut symbols: Vec<Symbol, A>,
    addresses: &[u32],
) -> Result<Vec<Option<Symbol>, A>, AllocError>
    requires numbered { AreNumbered symbols.items }
    requires rise { IsNonDecreasing addresses.now }
    ensures { IfOk result (λ v. v.items ≡ map (function_at symbols.items) addresses.now) }
{
    sort_symbols(&mut symbols);
    let mut sweep = Sweep::new(alloc.clone()?);
    let mut functions = Vec::new(alloc);
    for pc in addresses {
        functions.push(sweep.function_at(symbols.as_slice(), *pc)?)?;
    }
    Ok(functions)
}
