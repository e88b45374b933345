//! The lines of the table, from what is known of each loop.

ghost use Rattle.std.specs.Prelude.{◌≡◌, ◌<◌, ◌^◌, IfOk, map};
ghost use Rattle.std.specs.Option.{option_map};
ghost use Rattle.tomex_loop_views.specs.Lines.{HaveLoops, line_at, lines_to, sums_at};
ghost use Rattle.tomex_loop_views.specs.Table.{line_of};

use crate::paths::Paths;
use crate::places::Places;
use crate::row::{LoopRow, LoopSums};
use std::alloc::{AllocError, Allocator};
use tomex_loop_sums::{Spent, Turns, around_of};

/// What is known of a run's loops, by their numbers.
#[derive(Drop)]
pub(crate) struct Columns<A: Allocator> {
    pub places: Places<A>,
    pub turns: Turns<A>,
    pub spent: Spent<A>,
    pub paths: Paths<A>,
}

/// What loop `n` takes, of `count`.
fn sums_of<A: Allocator>(columns: &Columns<A>, count: usize, n: usize) -> LoopSums
    requires loops { HaveLoops count columns.now }
    requires number { n < count }
    ensures { result ≡ sums_at columns.now n }
{
    let places = &columns.places;
    let spent = &columns.spent;
    let entered = places.around[n].len() as u64;
    LoopSums {
        head: places.heads[n],
        extent: places.extents[n],
        function: places.functions[n],
        around: around_of(&places.around[n]),
        entered,
        iterations: entered + u64::from(columns.turns.rounds[n]),
        steps: spent.steps[n],
        cycles: spent.cycles[n],
        own: spent.accounts.own.by_key[n],
        floor: spent.accounts.floor.by_key[n],
        counts: columns.turns.counts[n],
    }
}

/// The counts of a pattern, if there is one.
fn slice_of<A: Allocator>(pattern: &Option<Vec<u64, A>>) -> Option<&[u64]>
    ensures { option_map (λ counts. counts.now) result ≡ option_map (λ counts. counts.items) pattern.now }
{
    match pattern {
        Some(counts) => Some(counts.as_slice()),
        None => None,
    }
}

/// The row of loop `n`, of `count`.
fn row_of<A: Allocator>(columns: &Columns<A>, count: usize, n: usize) -> LoopRow<'_>
    requires loops { HaveLoops count columns.now }
    requires number { n < count }
    ensures { line_of result ≡ line_at columns.now n }
{
    LoopRow {
        sums: sums_of(columns, count, n),
        pattern: slice_of(&columns.turns.patterns[n]),
        path: &columns.paths.by_loop[n],
    }
}

/// The rows of all loops, by their numbers.
pub(crate) fn rows_of<A: Allocator, B: Allocator>(
    alloc: B,
    columns: &Columns<A>,
    count: usize,
) -> Result<Vec<LoopRow<'_>, B>, AllocError>
    requires { HaveLoops count columns.now }
    ensures { IfOk result (λ rows. map line_of rows.items ≡ lines_to columns.now count) }
{
    let mut rows = Vec::new(alloc);
    for n in 0..count {
        rows.push(row_of(columns, count, n))?;
    }
    Ok(rows)
}
