//! The report of two builds by function.

ghost use Rattle.std.specs.Prelude.{◌≡◌, ◌≤◌, ◌++◌, ◌∷◌, [], IfOk, OnOk, codes, length, string_bytes};
ghost use Rattle.std.specs.List.{flat_map};
ghost use Rattle.csv.specs.Records.{fields_of, partial_of};
ghost use Rattle.tomex_rvexec.specs.Run.{most_steps};
ghost use Rattle.tomex_layout.specs.Csv.{IsReady, record_text};
ghost use Rattle.tomex_layout.specs.Growth.{Writes};
ghost use Rattle.tomex_functions.specs.Changes.{IsFunctionChanges, IsReport, build_of, change_fields};
ghost use Rattle.tomex_functions.specs.Changes.{change_numbers, header, nameless_record};
ghost use Rattle.tomex_functions.specs.ChangesKept.{IsNamed, report_of};
ghost use Rattle.tomex_functions.specs.Shares.{Both};
ghost use Rattle.tomex_functions.specs.WithSymbols.{IsWithSymbols};

use crate::builds::{BuildRun, drain_in, listing_in, named_of, total_in};
use crate::functions_error::FunctionsError;
use crate::named::{Named, NamedChange};
use crate::shares::Change;
use csv::{ByteRecord, Writer};
use std::alloc::{AllocError, Allocator, Global};
use tomex_config::Config;
use tomex_layout::{into_text, push_names, push_signed, put_record};
use tomex_run_views::push_decimals;
use tomex_symbols::has_symbols;

/// Adds what a name's functions take of both runs, and by how many cycles the new one takes more or fewer.
fn push_change(
    fields: &mut ByteRecord,
    scratch: &mut String,
    change: &Change,
) -> Result<(), AllocError>
    requires { partial_of fields.old ≡ [] }
    ensures fields { OnOk result (fields_of fields.new ≡ fields_of fields.old ++ change_numbers change.now) }
    ensures whole { OnOk result (partial_of fields.new ≡ []) }
{
    let (old, new) = (&change.old, &change.new);
    let numbers = [
        old.calls, new.calls, old.steps, new.steps, old.cycles, new.cycles,
    ];
    push_decimals(fields, scratch, &numbers)?;
    scratch.clear();
    push_signed(scratch, old.cycles, new.cycles)?;
    fields.push_field(scratch.as_bytes())
}

/// Makes a record the one of a name.
fn fill_change(
    fields: &mut ByteRecord,
    scratch: &mut String,
    name: &str,
    change: &Change,
) -> Result<(), AllocError>
    ensures { OnOk result (fields_of fields.new ≡ change_fields name.now change.now) }
{
    fields.clear();
    fields.push_field(name.as_bytes())?;
    push_change(fields, scratch, change)
}

/// Writes the record of a name.
fn put_change<A: Allocator>(
    writer: &mut Writer<Vec<u8, A>>,
    record: &mut ByteRecord,
    scratch: &mut String,
    name: &str,
    change: &Change,
) -> Result<(), AllocError>
    requires ready { IsReady writer.old }
    ensures ready { OnOk result (IsReady writer.new) }
    ensures text { OnOk result (Writes (record_text (change_fields name.now change.now)) writer.old writer.new) }
{
    fill_change(record, scratch, name, change)?;
    put_record(writer, record)
}

/// Writes the records of the names.
fn put_names<A: Allocator>(
    writer: &mut Writer<Vec<u8, A>>,
    heap: Global,
    changes: &[NamedChange],
) -> Result<(), AllocError>
    requires ready { IsReady writer.old }
    ensures ready { OnOk result (IsReady writer.new) }
    ensures text { OnOk result (Writes
        (flat_map (λ c. record_text (change_fields (string_bytes c.name) c.change)) changes.now)
        writer.old writer.new) }
{
    let mut record = ByteRecord::new(heap);
    let mut scratch = String::new(heap);
    for named in changes {
        put_change(
            writer,
            &mut record,
            &mut scratch,
            named.name.as_str(),
            &named.change,
        )?;
    }
    Ok(())
}

/// Writes the names of the columns.
fn put_header<A: Allocator>(writer: &mut Writer<Vec<u8, A>>, heap: Global) -> Result<(), AllocError>
    requires ready { IsReady writer.old }
    ensures ready { OnOk result (IsReady writer.new) }
    ensures text { OnOk result (Writes (record_text header) writer.old writer.new) }
{
    let mut record = ByteRecord::new(heap);
    push_names(
        &mut record,
        &[
            "function",
            "old_calls",
            "new_calls",
            "old_steps",
            "new_steps",
            "old_cycles",
            "new_cycles",
            "difference",
        ],
    )?;
    put_record(writer, &record)
}

/// Writes the record of steps without a function, if there are any.
fn put_nameless<A: Allocator>(
    writer: &mut Writer<Vec<u8, A>>,
    heap: Global,
    nameless: &Option<Change>,
) -> Result<(), AllocError>
    requires ready { IsReady writer.old }
    ensures ready { OnOk result (IsReady writer.new) }
    ensures text { OnOk result (Writes (nameless_record nameless.now) writer.old writer.new) }
{
    match nameless {
        Some(change) => put_change(
            writer,
            &mut ByteRecord::new(heap),
            &mut String::new(heap),
            "-",
            change,
        ),
        None => Ok(()),
    }
}

/// Writes the records that close a report.
fn put_sums<A: Allocator>(
    writer: &mut Writer<Vec<u8, A>>,
    heap: Global,
    drain: &Change,
    total: &Change,
) -> Result<(), AllocError>
    requires { IsReady writer.old }
    ensures { OnOk result (Writes (record_text (change_fields (codes "drain") drain.now)
        ++ record_text (change_fields (codes "total") total.now)) writer.old writer.new) }
{
    let mut record = ByteRecord::new(heap);
    let mut scratch = String::new(heap);
    put_change(writer, &mut record, &mut scratch, "drain", drain)?;
    put_change(writer, &mut record, &mut scratch, "total", total)
}

/// Writes the report of what was kept.
fn put_report<A: Allocator>(
    writer: &mut Writer<Vec<u8, A>>,
    heap: Global,
    changes: &[NamedChange],
    nameless: &Option<Change>,
    drain: &Change,
    total: &Change,
) -> Result<(), AllocError>
    requires { IsReady writer.old }
    ensures { OnOk result (Writes
        (report_of changes.now nameless.now drain.now total.now) writer.old writer.new) }
{
    put_header(writer, heap)?;
    put_names(writer, heap, changes)?;
    put_nameless(writer, heap, nameless)?;
    put_sums(writer, heap, drain, total)
}

/// The report of what was kept, in its order.
fn text_of_changes<A: Allocator>(
    alloc: A,
    heap: Global,
    changes: &[NamedChange],
    nameless: &Option<Change>,
    drain: &Change,
    total: &Change,
) -> Result<Vec<u8, A>, AllocError>
    ensures { IfOk result (λ text. text.items ≡ report_of changes.now nameless.now drain.now total.now) }
{
    let mut writer = Writer::from_writer(Vec::new(alloc));
    put_report(&mut writer, heap, changes, nameless, drain, total)?;
    into_text(writer)
}

/// The report of what was kept.
fn text_of<A: Allocator>(
    alloc: A,
    heap: Global,
    named: Named,
    drain: &Change,
    total: &Change,
) -> Result<Vec<u8, A>, AllocError>
    ensures { IfOk result (λ text. (both : Both) → IsNamed both named
        → IsReport both drain.now total.now text.items) }
{
    let nameless = named.nameless;
    let changes = named.in_order(heap)?;
    text_of_changes(alloc, heap, changes.as_slice(), &nameless, drain, total)
}

/// Two builds of a program on a configuration by function: CSV with a header, a record for each name of a function that
/// has steps in one of the two runs, with the calls, the steps and the cycles of the functions of this name in each
/// run, and by how many cycles the new build takes more or fewer. The greatest difference comes first, then names by
/// their bytes; a record `-` follows if steps of one of the runs have no function, then the cycles after the last
/// issue, and last the sums of the columns.
///
/// Builds of which one has no symbols are refused. `csv` allocates its records in `heap`, and so are names.
pub fn function_changes<A: Allocator + Clone>(
    alloc: A,
    heap: Global,
    config: &Config,
    old: &BuildRun<'_, A>,
    new: &BuildRun<'_, A>,
) -> Result<Vec<u8, A>, FunctionsError>
    requires old { length old.now.run.now ≤ most_steps }
    requires new { length new.now.run.now ≤ most_steps }
    ensures { IsWithSymbols (IsFunctionChanges config.now (build_of old.now) (build_of new.now))
        old.now.file.now new.now.file.now result }
{
    if !has_symbols(old.file) || !has_symbols(new.file) {
        return Err(FunctionsError::NoSymbols);
    }
    let old_rows = listing_in(alloc.clone()?, config, old)?;
    let new_rows = listing_in(alloc.clone()?, config, new)?;
    let drain = Change {
        old: drain_in(&old_rows),
        new: drain_in(&new_rows),
    };
    let total = Change {
        old: total_in(&old_rows),
        new: total_in(&new_rows),
    };
    let named = named_of(heap, old.file, &old_rows, new.file, &new_rows)?;
    Ok(text_of(alloc, heap, named, &drain, &total)?)
}
