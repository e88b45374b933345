//! The order in which symbols are visited.
ghost use Rattle.std.specs.Prelude.{IsPermutation};
ghost use Rattle.tomex_symbols.specs.Sweep.{InOrder};

use crate::symbol::Symbol;
use std::alloc::Allocator;
use std::cmp::Reverse;

/// Puts symbols in the order of their addresses. Of several at one address, the one to be chosen
/// comes last.
pub fn sort_symbols<A: Allocator>(symbols: &mut Vec<Symbol, A>)
    ensures moved { IsPermutation symbols.old.items symbols.new.items }
    ensures order { InOrder symbols.new.items }
{
    symbols.sort_unstable_by_key(|symbol| {
        (
            symbol.address,
            Reverse(symbol.rank()),
            Reverse(symbol.number),
        )
    });
}
