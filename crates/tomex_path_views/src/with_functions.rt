//! A run's path by link and by place, with the function of each.

ghost use Rattle.std.specs.Prelude.{◌≤◌, IfOk, length};
ghost use Rattle.tomex_rvexec.specs.Run.{most_steps};
ghost use Rattle.tomex_functions.specs.Kept.{IsIndexOf};
ghost use Rattle.tomex_functions.specs.WithFunctions.{IsWithFunctions};
ghost use Rattle.tomex_path_views.specs.ByFunction.{IsPathByPlace, IsPathLinks};
ghost use Rattle.tomex_symbols.specs.Symbols.{symbols_of};

use crate::by_link::text_of_links;
use crate::by_place::text_of_places;
use crate::charges::count_by_address;
use std::alloc::{AllocError, Allocator, Global};
use tomex_config::Config;
use tomex_functions::{FunctionColumn, FunctionsError, Index};
use tomex_path::path;
use tomex_symbols::{has_symbols, symbols};
use tomex_timing::Run;

/// The functions of the addresses of a run, by the symbols of its whole file.
pub fn index_of<A: Allocator + Clone>(
    alloc: &A,
    run: &Run<A>,
    file: &[u8],
) -> Result<Index<A>, AllocError>
    ensures { IfOk result (λ index. IsIndexOf (symbols_of file.now) run.now index) }
{
    let symbols = symbols(alloc.clone()?, file)?;
    Index::new(alloc.clone()?, symbols, run.steps())
}

/// The links of a path with their functions, by the symbols that the file may have.
fn links_with_functions<A: Allocator + Clone>(
    alloc: A,
    heap: Global,
    run: &Run<A>,
    config: &Config,
    file: &[u8],
) -> Result<Vec<u8, A>, AllocError>
    requires few { length run.now ≤ most_steps }
    ensures { IfOk result (λ text. IsPathLinks file.now config.now run.now text.items) }
{
    let index = index_of(&alloc, run, file)?;
    let path = path(alloc.clone()?, run, config)?;
    let column = FunctionColumn {
        file,
        index: &index,
    };
    text_of_links(alloc, heap, &["function"], &column, run.steps(), &path)
}

/// The links of a run's critical path with the function of each: the records of
/// [`path_links`](crate::path_links) with a column more.
///
/// `file` is the whole file of the program. `csv` allocates its records in `heap`.
pub fn path_links_and_functions<A: Allocator + Clone>(
    alloc: A,
    heap: Global,
    run: &Run<A>,
    config: &Config,
    file: &[u8],
) -> Result<Vec<u8, A>, FunctionsError>
    requires few { length run.now ≤ most_steps }
    ensures { IsWithFunctions (IsPathLinks file.now config.now run.now) file.now result }
{
    if !has_symbols(file) {
        return Err(FunctionsError::NoSymbols);
    }
    Ok(links_with_functions(alloc, heap, run, config, file)?)
}

/// A path by place with the functions, by the symbols that the file may have.
fn places_with_functions<A: Allocator + Clone>(
    alloc: A,
    heap: Global,
    run: &Run<A>,
    config: &Config,
    file: &[u8],
) -> Result<Vec<u8, A>, AllocError>
    requires few { length run.now ≤ most_steps }
    ensures { IfOk result (λ text. IsPathByPlace file.now config.now run.now text.items) }
{
    let index = index_of(&alloc, run, file)?;
    let tally = count_by_address(&alloc, run, config)?;
    let column = FunctionColumn {
        file,
        index: &index,
    };
    text_of_places(alloc, heap, &["function"], &column, &tally)
}

/// A run's critical path by place in the program with the function of each: the records of
/// [`path_by_pc`](crate::path_by_pc) with a column more.
///
/// `file` is the whole file of the program. `csv` allocates its records in `heap`.
pub fn path_by_pc_and_function<A: Allocator + Clone>(
    alloc: A,
    heap: Global,
    run: &Run<A>,
    config: &Config,
    file: &[u8],
) -> Result<Vec<u8, A>, FunctionsError>
    requires few { length run.now ≤ most_steps }
    ensures { IsWithFunctions (IsPathByPlace file.now config.now run.now) file.now result }
{
    if !has_symbols(file) {
        return Err(FunctionsError::NoSymbols);
    }
    Ok(places_with_functions(alloc, heap, run, config, file)?)
}
