//! The table of a run's loops on a configuration.

ghost use Rattle.std.specs.Prelude.{◌≡◌, ◌+◌, ◌<◌, ◌≤◌, ◌^◌, All, IfOk, IsPermutation, length, map, sum};
ghost use Rattle.tomex_rvexec.specs.Run.{most_steps};
ghost use Rattle.tomex_symbols.specs.Symbols.{symbols_of};
ghost use Rattle.tomex_timing.specs.Search.{times_in};
ghost use Rattle.tomex_run_views.specs.ByPlace.{pc_of};
ghost use Rattle.tomex_loops.specs.Sound.{AreSound, IsOneOf};
ghost use Rattle.tomex_loop_sums.specs.ByLoop.{keys_of, spans_by};
ghost use Rattle.tomex_loop_sums.specs.Columns.{AreSpent, AreTurns};
ghost use Rattle.tomex_loop_views.specs.Lines.{AreColumns, AreLoopsOf, ArePathTimes, HaveLoops};
ghost use Rattle.tomex_loop_views.specs.Lines.{IsTableOf, lines_to, outside_sums, total_sums};
ghost use Rattle.tomex_loop_views.specs.LoopsReport.{IsLoopsReport};
ghost use Rattle.tomex_loop_views.specs.PlaceColumns.{ArePlaces};
ghost use Rattle.tomex_loop_views.specs.Table.{InOrder, line_of};

use crate::lines::{Columns, rows_of};
use crate::paths::paths_of;
use crate::places::{Places, places_of};
use crate::row::{LoopRow, Rest, RestSums};
use crate::table::{sort_rows, table_of};
use std::alloc::{AllocError, Allocator, Global};
use tomex_config::Config;
use tomex_loop_sums::{Spent, Turns, loops_of, spent_of, steps_without, turns_of, values_of};
use tomex_loops::{Loops, Visit};
use tomex_path::{RunPath, path};
use tomex_rvexec::Step;
use tomex_timing::evaluate::total;
use tomex_timing::{Run, Times};

/// The number of the loop of each step's innermost visit.
fn keys_of<A: Allocator + Clone>(
    alloc: &A,
    visits: &[Visit],
    innermost: &[Option<u32>],
) -> Result<Vec<Option<u32>, A>, AllocError>
    requires { All (IsOneOf (length visits.now)) innermost.now }
    ensures { IfOk result (λ v. v.items ≡ keys_of visits.now innermost.now) }
{
    let loops = loops_of(alloc.clone()?, visits)?;
    values_of(alloc.clone()?, &loops, innermost)
}

/// The places of a run's loops.
fn places_in<A: Allocator + Clone>(
    alloc: &A,
    file: &[u8],
    steps: &[Step],
    loops: &Loops<A>,
) -> Result<Places<A>, AllocError>
    requires { AreSound (length steps.now) loops.now }
    ensures { IfOk result (λ p. ArePlaces (symbols_of file.now) (map pc_of steps.now) loops.now.heads loops.now.visits
        loops.now.here p) }
{
    places_of(
        alloc,
        file,
        steps,
        loops.heads(),
        loops.visits(),
        loops.here(),
    )
}

/// The rounds of a run's loops.
fn turns_in<A: Allocator + Clone>(
    alloc: &A,
    loops: &Loops<A>,
    times: &[Times],
) -> Result<Turns<A>, AllocError>
    requires sound { AreSound (length times.now) loops.now }
    requires few { length times.now < 2 ^ 32 }
    ensures { IfOk result (λ t. AreTurns (map (λ t. t.issue) times.now) loops.now.visits loops.now.rounds
        (length loops.now.heads) t) }
{
    let count = loops.heads().len();
    turns_of(alloc.clone()?, loops.visits(), loops.rounds(), count, times)
}

/// What the steps of a run's loops take.
fn spent_in<A: Allocator + Clone>(
    alloc: &A,
    run: &Run<A>,
    config: &Config,
    times: &[Times],
    loops: &Loops<A>,
    keys: &[Option<u32>],
) -> Result<Spent<A>, AllocError>
    requires few { length run.now ≤ most_steps }
    requires times { times.now ≡ times_in config.now run.now }
    requires sound { AreSound (length run.now) loops.now }
    requires keys { keys.now ≡ keys_of loops.now.visits loops.now.innermost }
    ensures { IfOk result (λ s. AreSpent config.now run.now
        (spans_by (length run.now) loops.now.visits loops.now.ends) loops.now.innermost keys.now
        (length loops.now.heads) s) }
{
    spent_of(
        alloc.clone()?,
        run,
        config,
        times,
        loops.visits(),
        loops.ends(),
        loops.innermost(),
        keys,
        loops.heads().len(),
    )
}

/// The columns of the table, by the numbers of the loops.
fn columns_of<A: Allocator + Clone>(
    alloc: &A,
    run: &Run<A>,
    config: &Config,
    file: &[u8],
    path: &RunPath<A>,
    loops: &Loops<A>,
    keys: &[Option<u32>],
) -> Result<Columns<A>, AllocError>
    requires few { length run.now ≤ most_steps }
    requires path { ArePathTimes config.now run.now path.now }
    requires sound { AreSound (length run.now) loops.now }
    requires keys { keys.now ≡ keys_of loops.now.visits loops.now.innermost }
    ensures { IfOk result (λ c. AreColumns file.now config.now run.now loops.now c) }
{
    let places = places_in(alloc, file, run.steps(), loops)?;
    let turns = turns_in(alloc, loops, &path.times)?;
    let spent = spent_in(alloc, run, config, &path.times, loops, keys)?;
    let paths = paths_of(alloc, keys, loops.heads().len(), &path.links)?;
    Ok(Columns {
        places,
        turns,
        spent,
        paths,
    })
}

/// The sum of all these numbers.
fn sum_of(numbers: &[u64], without: u64) -> u64
    requires { sum numbers.now + without < 2 ^ 64 }
    ensures { result ≡ sum numbers.now + without }
{
    let mut all = without;
    for number in numbers {
        all += *number;
    }
    all
}

/// What the steps outside of all loops take.
fn outside_of<A: Allocator>(columns: &Columns<A>, keys: &[Option<u32>]) -> RestSums
    ensures { result ≡ outside_sums columns.now keys.now }
{
    RestSums {
        steps: steps_without(keys),
        cycles: columns.spent.accounts.own.without,
        floor: columns.spent.accounts.floor.without,
    }
}

/// What all steps take, of a run with these times.
fn total_of<A: Allocator>(columns: &Columns<A>, times: &[Times]) -> RestSums
    requires { sum columns.now.spent.accounts.floor.by_key.items + columns.now.spent.accounts.floor.without < 2 ^ 64 }
    ensures { result ≡ total_sums columns.now times.now }
{
    let floor = &columns.spent.accounts.floor;
    RestSums {
        steps: times.len() as u64,
        cycles: total(times),
        floor: sum_of(&floor.by_key, floor.without),
    }
}

/// The rows of the loops, of which there are `count`, in the order of the table.
fn sorted_rows<A: Allocator + Clone>(
    alloc: A,
    columns: &Columns<A>,
    count: usize,
) -> Result<Vec<LoopRow<'_>, A>, AllocError>
    requires { HaveLoops count columns.now }
    ensures those { IfOk result (λ rows. IsPermutation (lines_to columns.now count) (map line_of rows.items)) }
    ensures order { IfOk result (λ rows. InOrder (map line_of rows.items)) }
{
    let mut rows = rows_of(alloc, columns, count)?;
    sort_rows(&mut rows);
    Ok(rows)
}

/// The table of these columns, of `count` loops.
fn text_of_columns<A: Allocator + Clone>(
    alloc: &A,
    heap: Global,
    file: &[u8],
    columns: &Columns<A>,
    count: usize,
    outside: RestSums,
    all: RestSums,
) -> Result<Vec<u8, A>, AllocError>
    requires { HaveLoops count columns.now }
    ensures { IfOk result (λ text. IsTableOf file.now (lines_to columns.now count)
        (record { sums = outside; path = columns.now.paths.outside.items })
        (record { sums = all; path = columns.now.paths.total.items }) text.items) }
{
    let rows = sorted_rows(alloc.clone()?, columns, count)?;
    let outside = Rest {
        sums: outside,
        path: &columns.paths.outside,
    };
    let all = Rest {
        sums: all,
        path: &columns.paths.total,
    };
    table_of(alloc.clone()?, heap, file, &rows, &outside, &all)
}

/// The table of a run with these loops and this path on a configuration.
fn table_with<A: Allocator + Clone>(
    alloc: &A,
    heap: Global,
    run: &Run<A>,
    config: &Config,
    file: &[u8],
    path: &RunPath<A>,
    loops: &Loops<A>,
) -> Result<Vec<u8, A>, AllocError>
    requires few { length run.now ≤ most_steps }
    requires path { ArePathTimes config.now run.now path.now }
    requires sound { AreSound (length run.now) loops.now }
    requires loops { AreLoopsOf run.now loops.now }
    ensures { IfOk result (λ text. IsLoopsReport config.now run.now file.now text.items) }
{
    config.keeps_limits();
    let keys = keys_of(alloc, loops.visits(), loops.innermost())?;
    let columns = columns_of(alloc, run, config, file, path, loops, &keys)?;
    let outside = outside_of(&columns, &keys);
    let all = total_of(&columns, &path.times);
    let count = loops.heads().len();
    text_of_columns(alloc, heap, file, &columns, count, outside, all)
}

/// The table of a run's loops on a configuration: CSV with a header, a record for each loop, those with the most cycles
/// of their own first, one for the steps outside of all loops, and one for all steps.
///
/// `file` is the whole file of the program: loops are named by its functions, if it has symbols. `csv` allocates its
/// records in `heap`. The work is that of the run's path, and linear in the steps, except for sorting its loops and
/// their rounds, and for the functions of its addresses.
pub fn loops_report<A: Allocator + Clone>(
    alloc: A,
    heap: Global,
    run: &Run<A>,
    config: &Config,
    file: &[u8],
) -> Result<Vec<u8, A>, AllocError>
    requires few { length run.now ≤ most_steps }
    ensures { IfOk result (λ text. IsLoopsReport config.now run.now file.now text.items) }
{
    let path = path(alloc.clone()?, run, config)?;
    let loops = Loops::of(alloc.clone()?, run.steps())?;
    table_with(&alloc, heap, run, config, file, &path, &loops)
}
