//! The stalls report by function.

ghost use Rattle.std.specs.Prelude.{◌≡◌, ◌≤◌, ◌++◌, ◌∷◌, [], IfOk, OnOk, codes, length};
ghost use Rattle.tomex_rvexec.specs.Run.{most_steps};
ghost use Rattle.tomex_layout.specs.Csv.{IsReady, record_text};
ghost use Rattle.tomex_layout.specs.Growth.{Writes};
ghost use Rattle.tomex_functions.specs.ByFunction.{IsReportByFunction, call_fields};
ghost use Rattle.tomex_functions.specs.Kept.{report_of_listing, total_fields};
ghost use Rattle.tomex_functions.specs.WithFunctions.{IsWithFunctions};

use crate::function_rows::{RowColumns, put_rows};
use crate::functions_error::FunctionsError;
use crate::rows::{Listing, Row, listing_of};
use csv::{ByteRecord, Writer};
use std::alloc::{AllocError, Allocator, Global};
use tomex_config::Config;
use tomex_layout::{into_text, push_decimal, push_names, put_record};
use tomex_run_views::{SumColumns, WaitColumns, put_columns, put_sum};
use tomex_symbols::{has_symbols, symbols};
use tomex_timing::Run;

/// How often a function is called, how many steps are in it, how many cycles they take, and how long they wait.
#[derive(Clone, Copy, Drop)]
struct CallColumns;

impl RowColumns for CallColumns {
    ghost shown = { call_fields };

    fn push_row(
        &self,
        fields: &mut ByteRecord,
        scratch: &mut String,
        row: &Row,
    ) -> Result<(), AllocError> {
        push_decimal(fields, scratch, row.calls)?;
        WaitColumns.push_sum(fields, scratch, &row.sum)
    }
}

/// Writes the record of all steps.
fn put_total<A: Allocator>(
    writer: &mut Writer<Vec<u8, A>>,
    heap: Global,
    listing: &Listing<A>,
) -> Result<(), AllocError>
    requires { IsReady writer.old }
    ensures { OnOk result (Writes (record_text (total_fields listing.now)) writer.old writer.new) }
{
    let mut record = ByteRecord::new(heap);
    let mut scratch = String::new(heap);
    push_names(&mut record, &["total", "-"])?;
    push_decimal(&mut record, &mut scratch, listing.calls)?;
    WaitColumns.push_sum(&mut record, &mut scratch, &listing.total)?;
    put_record(writer, &record)
}

/// Writes the report of the functions of a run.
fn put_listing<A: Allocator>(
    writer: &mut Writer<Vec<u8, A>>,
    heap: Global,
    file: &[u8],
    listing: &Listing<A>,
) -> Result<(), AllocError>
    requires { IsReady writer.old }
    ensures { OnOk result (Writes (report_of_listing file.now listing.now) writer.old writer.new) }
{
    put_columns(writer, heap, &["pc", "function", "calls"], &WaitColumns)?;
    put_rows(writer, heap, file, &CallColumns, listing.rows.as_slice())?;
    put_sum(
        writer,
        heap,
        &["drain", "-", "0"],
        &WaitColumns,
        &listing.drain,
    )?;
    put_total(writer, heap, listing)
}

/// The report of the functions of a run.
fn text_of_listing<A: Allocator>(
    alloc: A,
    heap: Global,
    file: &[u8],
    listing: &Listing<A>,
) -> Result<Vec<u8, A>, AllocError>
    ensures { IfOk result (λ text. text.items ≡ report_of_listing file.now listing.now) }
{
    let mut writer = Writer::from_writer(Vec::new(alloc));
    put_listing(&mut writer, heap, file, listing)?;
    into_text(writer)
}

/// The stalls report of a run on a configuration by function: CSV with a header, a record for each function of
/// the program's file that is the function of a step, with how often it is called, how many steps the run has in it,
/// how many cycles they take, and for how many cycles they wait for what. Those with the most cycles come first, then
/// those at lower addresses; a record without a name follows if steps have no function, then the cycles after the
/// last issue, and last the sums of the columns.
///
/// `file` is the whole file of the program. `csv` allocates its records in `heap`.
pub fn stalls_by_function<A: Allocator + Clone>(
    alloc: A,
    heap: Global,
    run: &Run<A>,
    config: &Config,
    file: &[u8],
) -> Result<Vec<u8, A>, FunctionsError>
    requires few { length run.now ≤ most_steps }
    ensures { IsWithFunctions (IsReportByFunction file.now config.now run.now) file.now result }
{
    if !has_symbols(file) {
        return Err(FunctionsError::NoSymbols);
    }
    let symbols = symbols(alloc.clone()?, file)?;
    let listing = listing_of(alloc.clone()?, config, run.steps(), symbols)?;
    Ok(text_of_listing(alloc, heap, file, &listing)?)
}
