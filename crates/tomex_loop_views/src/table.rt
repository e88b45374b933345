//! The table of a run's loops, as CSV.

ghost use Rattle.std.specs.Prelude.{◌≡◌, ◌++◌, ◌∷◌, [], IfOk, IsPermutation, OnOk, codes, map};
ghost use Rattle.std.specs.List.{flat_map};
ghost use Rattle.csv.specs.Records.{fields_of, partial_of};
ghost use Rattle.tomex_layout.specs.Csv.{IsReady, record_text};
ghost use Rattle.tomex_layout.specs.Growth.{Writes};
ghost use Rattle.tomex_loop_views.specs.Table.{InOrder, columns, line_fields, line_of, place_fields, rest_fields};
ghost use Rattle.tomex_loop_views.specs.Table.{rest_of, sum_fields, table_text};

use crate::fields::{
    push_address, push_around, push_counts, push_dashes, push_decimals, push_extent, push_path,
    push_pattern,
};
use crate::row::{LoopRow, LoopSums, Rest};
use csv::{ByteRecord, Writer};
use std::alloc::{AllocError, Allocator, Global};
use std::cmp::Reverse;
use tomex_functions::push_function;
use tomex_layout::{into_text, push_names, put_record};

/// Puts loops in the order of the table: those with the most cycles of their own first, then by the head.
pub(crate) fn sort_rows<A: Allocator>(rows: &mut Vec<LoopRow, A>)
    ensures moved { IsPermutation rows.old.items rows.new.items }
    ensures order { InOrder (map line_of rows.new.items) }
{
    rows.sort_unstable_by_key(|row| (Reverse(row.sums.own), row.sums.head));
}

/// Adds the places of a loop.
fn push_places(
    fields: &mut ByteRecord,
    scratch: &mut String,
    heap: Global,
    file: &[u8],
    sums: &LoopSums,
) -> Result<(), AllocError>
    requires { partial_of fields.old ≡ [] }
    ensures fields { OnOk result (fields_of fields.new ≡ fields_of fields.old ++ place_fields file.now sums.now) }
    ensures whole { OnOk result (partial_of fields.new ≡ []) }
{
    push_address(fields, scratch, sums.head)?;
    push_extent(fields, scratch, sums.extent)?;
    push_function(fields, heap, file, &sums.function)?;
    push_around(fields, scratch, sums.around)
}

/// Adds how often a loop goes round, and what it takes.
fn push_sums(
    fields: &mut ByteRecord,
    scratch: &mut String,
    sums: &LoopSums,
) -> Result<(), AllocError>
    requires { partial_of fields.old ≡ [] }
    ensures fields { OnOk result (fields_of fields.new ≡ fields_of fields.old ++ sum_fields sums.now) }
    ensures whole { OnOk result (partial_of fields.new ≡ []) }
{
    let often = [sums.entered, sums.iterations, sums.steps];
    push_decimals(fields, scratch, &often)?;
    push_decimals(fields, scratch, &[sums.cycles, sums.own, sums.floor])
}

/// Makes a record the one of a loop.
fn fill_row(
    fields: &mut ByteRecord,
    scratch: &mut String,
    heap: Global,
    file: &[u8],
    row: &LoopRow,
) -> Result<(), AllocError>
    ensures { OnOk result (fields_of fields.new ≡ line_fields file.now (line_of row.now)) }
{
    fields.clear();
    push_places(fields, scratch, heap, file, &row.sums)?;
    push_sums(fields, scratch, &row.sums)?;
    push_counts(fields, scratch, row.sums.counts)?;
    push_pattern(fields, scratch, row.pattern)?;
    push_path(fields, scratch, row.path)
}

/// Writes the record of a loop.
fn put_row<A: Allocator>(
    writer: &mut Writer<Vec<u8, A>>,
    record: &mut ByteRecord,
    scratch: &mut String,
    heap: Global,
    file: &[u8],
    row: &LoopRow,
) -> Result<(), AllocError>
    requires ready { IsReady writer.old }
    ensures ready { OnOk result (IsReady writer.new) }
    ensures text { OnOk result (Writes (record_text (line_fields file.now (line_of row.now))) writer.old writer.new) }
{
    fill_row(record, scratch, heap, file, row)?;
    put_record(writer, record)
}

/// Writes the records of the loops.
fn put_rows<A: Allocator>(
    writer: &mut Writer<Vec<u8, A>>,
    heap: Global,
    file: &[u8],
    rows: &[LoopRow],
) -> Result<(), AllocError>
    requires ready { IsReady writer.old }
    ensures ready { OnOk result (IsReady writer.new) }
    ensures text { OnOk result (
        Writes (flat_map (λ row. record_text (line_fields file.now (line_of row))) rows.now) writer.old writer.new) }
{
    let mut record = ByteRecord::new(heap);
    let mut scratch = String::new(heap);
    for row in rows {
        put_row(writer, &mut record, &mut scratch, heap, file, row)?;
    }
    Ok(())
}

/// Makes a record the one of steps that are no loop's, or of all.
fn fill_rest(
    fields: &mut ByteRecord,
    scratch: &mut String,
    name: &str,
    rest: &Rest,
) -> Result<(), AllocError>
    ensures { OnOk result (fields_of fields.new ≡ rest_fields name.now (rest_of rest.now)) }
{
    fields.clear();
    push_names(fields, &[name])?;
    push_dashes(fields, 6)?;
    let sums = &rest.sums;
    push_decimals(fields, scratch, &[sums.steps, sums.cycles])?;
    push_decimals(fields, scratch, &[sums.cycles, sums.floor])?;
    push_dashes(fields, 6)?;
    push_path(fields, scratch, rest.path)
}

/// Writes the record of steps that are no loop's, or of all.
fn put_rest<A: Allocator>(
    writer: &mut Writer<Vec<u8, A>>,
    heap: Global,
    name: &str,
    rest: &Rest,
) -> Result<(), AllocError>
    requires ready { IsReady writer.old }
    ensures ready { OnOk result (IsReady writer.new) }
    ensures text { OnOk result (Writes (record_text (rest_fields name.now (rest_of rest.now))) writer.old writer.new) }
{
    let mut record = ByteRecord::new(heap);
    fill_rest(&mut record, &mut String::new(heap), name, rest)?;
    put_record(writer, &record)
}

/// Writes the names of the columns.
fn put_header<A: Allocator>(writer: &mut Writer<Vec<u8, A>>, heap: Global) -> Result<(), AllocError>
    requires ready { IsReady writer.old }
    ensures ready { OnOk result (IsReady writer.new) }
    ensures text { OnOk result (Writes (record_text columns) writer.old writer.new) }
{
    let mut record = ByteRecord::new(heap);
    push_names(&mut record, &["pc", "first", "last", "function", "in"])?;
    push_names(&mut record, &["entered", "iterations", "steps"])?;
    push_names(&mut record, &["cycles", "own", "floor"])?;
    push_names(&mut record, &["least", "median", "most", "usual", "alike"])?;
    push_names(&mut record, &["pattern", "path"])?;
    put_record(writer, &record)
}

/// Writes the table.
fn put_table<A: Allocator>(
    writer: &mut Writer<Vec<u8, A>>,
    heap: Global,
    file: &[u8],
    rows: &[LoopRow],
    outside: &Rest,
    total: &Rest,
) -> Result<(), AllocError>
    requires { IsReady writer.old }
    ensures { OnOk result (Writes
        (table_text file.now (map line_of rows.now) (rest_of outside.now) (rest_of total.now)) writer.old writer.new) }
{
    put_header(writer, heap)?;
    put_rows(writer, heap, file, rows)?;
    put_rest(writer, heap, "-", outside)?;
    put_rest(writer, heap, "total", total)
}

/// The table of loops, in the order in which they come, of the steps outside of them, and of all steps.
pub(crate) fn table_of<A: Allocator>(
    alloc: A,
    heap: Global,
    file: &[u8],
    rows: &[LoopRow],
    outside: &Rest,
    total: &Rest,
) -> Result<Vec<u8, A>, AllocError>
    ensures { IfOk result (λ text. text.items
        ≡ table_text file.now (map line_of rows.now) (rest_of outside.now) (rest_of total.now)) }
{
    let mut writer = Writer::from_writer(Vec::new(alloc));
    put_table(&mut writer, heap, file, rows, outside, total)?;
    into_text(writer)
}
