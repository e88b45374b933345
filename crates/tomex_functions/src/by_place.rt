//! The stalls report by place in the program, with functions.

ghost use Rattle.std.specs.Prelude.{◌≤◌, length};
ghost use Rattle.tomex_rvexec.specs.Run.{most_steps};
ghost use Rattle.tomex_functions.specs.ByPlace.{IsReportByPlace};
ghost use Rattle.tomex_functions.specs.Kept.{IsFunctionField};
ghost use Rattle.tomex_functions.specs.WithFunctions.{IsWithFunctions};

use crate::functions_error::FunctionsError;
use crate::index::Index;
use crate::shown_names::push_function;
use csv::ByteRecord;
use std::alloc::{AllocError, Allocator, Global};
use tomex_config::Config;
use tomex_run_views::{StepColumns, addresses_of, count_run, text_by_place};
use tomex_rvexec::Step;
use tomex_symbols::{has_symbols, symbols};
use tomex_timing::Run;

/// The column of the functions of a file's program.
#[derive(Clone, Copy, Drop)]
pub struct FunctionColumn<'a, A: Allocator> {
    pub file: &'a [u8],
    pub index: &'a Index<A>,
}

impl<'a, A: Allocator> StepColumns for FunctionColumn<'a, A> {
    ghost shows = { λ column step own. IsFunctionField column.file.now column.index.now step own };

    fn push_fields(
        &self,
        fields: &mut ByteRecord,
        heap: Global,
        step: &Step,
    ) -> Result<(), AllocError> {
        push_function(fields, heap, self.file, &self.index.function_at(step.pc))
    }
}

/// The stalls report of a run on a configuration by place in the program, with the function of each: the records of
/// [`stalls_by_pc`](tomex_run_views::stalls_by_pc) with a column more.
///
/// `file` is the whole file of the program. `csv` allocates its records in `heap`.
pub fn stalls_by_pc_and_function<A: Allocator + Clone>(
    alloc: A,
    heap: Global,
    run: &Run<A>,
    config: &Config,
    file: &[u8],
) -> Result<Vec<u8, A>, FunctionsError>
    requires few { length run.now ≤ most_steps }
    ensures { IsWithFunctions (IsReportByPlace file.now config.now run.now) file.now result }
{
    if !has_symbols(file) {
        return Err(FunctionsError::NoSymbols);
    }
    let symbols = symbols(alloc.clone()?, file)?;
    let steps = run.steps();
    let index = Index::new(alloc.clone()?, symbols, steps)?;
    let addresses = addresses_of(alloc.clone()?, steps)?;
    let counted = count_run(alloc.clone()?, config, steps, addresses.as_slice())?;
    let column = FunctionColumn {
        file,
        index: &index,
    };
    Ok(text_by_place(alloc, heap, &["function"], &column, &counted)?)
}
