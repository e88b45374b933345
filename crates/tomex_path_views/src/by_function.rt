//! A run's path by function.

ghost use Rattle.std.specs.Prelude.{◌≡◌, ◌≤◌, [], All, IfOk, List, OnOk, length, map};
ghost use Rattle.std.specs.BTreeMap.{IsOrdered, values};
ghost use Rattle.std.specs.Ordering.{nat_cmp};
ghost use Rattle.tomex_rvexec.specs.Run.{most_steps};
ghost use Rattle.tomex_rvexec.specs.declared.step.Step.{Step};
ghost use Rattle.tomex_layout.specs.Csv.{IsReady};
ghost use Rattle.tomex_layout.specs.Growth.{Writes};
ghost use Rattle.tomex_functions.specs.Functions.{function_key};
ghost use Rattle.tomex_functions.specs.Kept.{HasAddress, IsIndexOf, row_of_group};
ghost use Rattle.tomex_functions.specs.WithFunctions.{IsWithFunctions};
ghost use Rattle.tomex_path_views.specs.ByFunction.{IsPathByFunction, report_of_sums};
ghost use Rattle.tomex_path_views.specs.Charges.{path_visits};
ghost use Rattle.tomex_run_views.specs.Tally.{IsTally};
ghost use Rattle.tomex_symbols.specs.declared.symbol.Symbol.{Symbol};

use crate::charges::{ChargeColumns, count_path};
use crate::with_functions::index_of;
use csv::Writer;
use std::alloc::{AllocError, Allocator, Global};
use tomex_config::Config;
use tomex_functions::{FunctionsError, Index, Row, keys_of, put_rows, sort_rows};
use tomex_layout::into_text;
use tomex_run_views::{Sum, Tally, put_columns, put_sum};
use tomex_rvexec::Step;
use tomex_symbols::has_symbols;
use tomex_timing::Run;

/// The key of the function of each step of a run.
fn function_keys<A: Allocator + Clone>(
    alloc: &A,
    index: &Index<A>,
    steps: &[Step],
) -> Result<Vec<u64, A>, AllocError>
    ensures { IfOk result (λ keys. (symbols : List Symbol) → IsIndexOf symbols steps.now index.now
        → keys.items ≡ map (function_key symbols) steps.now) }
{
    let functions = index.functions_of(alloc.clone()?, steps)?;
    keys_of(alloc.clone()?, functions.as_slice())
}

/// The links of a run's path on a configuration, counted by the functions of their steps.
fn count_by_function<A: Allocator + Clone>(
    alloc: &A,
    run: &Run<A>,
    config: &Config,
    index: &Index<A>,
) -> Result<Tally<A>, AllocError>
    requires few { length run.now ≤ most_steps }
    requires index { (symbols : List Symbol) × IsIndexOf symbols run.now index.now }
    ensures { IfOk result (λ tally. (symbols : List Symbol) → IsIndexOf symbols run.now index.now
        → IsTally (function_key symbols) (path_visits config.now run.now) tally) }
{
    let keys = function_keys(alloc, index, run.steps())?;
    count_path(alloc, run, config, keys.as_slice())
}

/// The rows of the functions, by their keys. No calls are counted.
fn rows_of<A: Allocator + Clone>(
    alloc: A,
    tally: &Tally<A>,
    index: &Index<A>,
) -> Result<Vec<Row, A>, AllocError>
    ensures rows { IfOk result (λ rows. (symbols : List Symbol) (steps : List Step) → IsIndexOf symbols steps index.now
        → All (λ group. HasAddress group.first.pc steps) (values tally.now.groups)
        → rows.items ≡ map (row_of_group symbols []) (values tally.now.groups)) }
    ensures order { OnOk result (IsOrdered nat_cmp tally.now.groups) }
{
    let mut rows = Vec::new(alloc);
    for group in tally.groups.values() {
        rows.push(Row {
            function: index.function_at(group.first.pc),
            calls: 0,
            sum: group.sum,
        })?;
    }
    Ok(rows)
}

/// Writes the report of these rows.
fn put_report<A: Allocator>(
    writer: &mut Writer<Vec<u8, A>>,
    heap: Global,
    file: &[u8],
    rows: &[Row],
    all: &Sum,
) -> Result<(), AllocError>
    requires { IsReady writer.old }
    ensures { OnOk result (Writes (report_of_sums file.now rows.now all.now) writer.old writer.new) }
{
    put_columns(writer, heap, &["pc", "function"], &ChargeColumns)?;
    put_rows(writer, heap, file, &ChargeColumns, rows)?;
    put_sum(writer, heap, &["total", "-"], &ChargeColumns, all)
}

/// The report of these rows.
fn text_of_rows<A: Allocator>(
    alloc: A,
    heap: Global,
    file: &[u8],
    rows: &[Row],
    all: &Sum,
) -> Result<Vec<u8, A>, AllocError>
    ensures { IfOk result (λ text. text.items ≡ report_of_sums file.now rows.now all.now) }
{
    let mut writer = Writer::from_writer(Vec::new(alloc));
    put_report(&mut writer, heap, file, rows, all)?;
    into_text(writer)
}

/// A path by function, by the symbols that the file may have.
fn text_by_function<A: Allocator + Clone>(
    alloc: A,
    heap: Global,
    run: &Run<A>,
    config: &Config,
    file: &[u8],
) -> Result<Vec<u8, A>, AllocError>
    requires few { length run.now ≤ most_steps }
    ensures { IfOk result (λ text. IsPathByFunction file.now config.now run.now text.items) }
{
    let index = index_of(&alloc, run, file)?;
    let tally = count_by_function(&alloc, run, config, &index)?;
    let mut rows = rows_of(alloc.clone()?, &tally, &index)?;
    sort_rows(&mut rows);
    text_of_rows(alloc, heap, file, rows.as_slice(), &tally.all)
}

/// A run's critical path by function: CSV with a header, a record for each function of the program's file that has a
/// link, with how many links it has, how many cycles are theirs, and how many of these are charged to what their steps
/// had waited for. Those with the most cycles come first, then those at lower addresses; a record without a name
/// follows if links have no function, and last the sums.
///
/// `file` is the whole file of the program. `csv` allocates its records in `heap`.
pub fn path_by_function<A: Allocator + Clone>(
    alloc: A,
    heap: Global,
    run: &Run<A>,
    config: &Config,
    file: &[u8],
) -> Result<Vec<u8, A>, FunctionsError>
    requires few { length run.now ≤ most_steps }
    ensures { IsWithFunctions (IsPathByFunction file.now config.now run.now) file.now result }
{
    if !has_symbols(file) {
        return Err(FunctionsError::NoSymbols);
    }
    Ok(text_by_function(alloc, heap, run, config, file)?)
}
