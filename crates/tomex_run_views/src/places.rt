//! The records of a report by place in the program.

ghost use Rattle.std.specs.Prelude.{◌≡◌, ◌++◌, ◌∷◌, [], ℕ, All, List, OnOk, codes, map};
ghost use Rattle.std.specs.BTreeMap.{IsOrdered, values};
ghost use Rattle.std.specs.List.{flat_map};
ghost use Rattle.std.specs.Ordering.{nat_cmp};
ghost use Rattle.csv.specs.Records.{fields_of, partial_of};
ghost use Rattle.tomex_rvexec.specs.declared.step.Step.{Step};
ghost use Rattle.tomex_layout.specs.Csv.{IsReady, record_text};
ghost use Rattle.tomex_layout.specs.Growth.{Writes};
ghost use Rattle.tomex_run_views.specs.ByPlace.{dashes};
ghost use Rattle.tomex_run_views.specs.Tally.{place_fields};

use crate::step_columns::StepColumns;
use crate::sum_columns::SumColumns;
use crate::tally::{Group, Sum, Tally};
use csv::{ByteRecord, Writer};
use std::alloc::{AllocError, Allocator, Global};
use tomex_layout::{push_instruction, push_names, put_record};

/// Makes a record the one of an address.
fn fill_place<C: StepColumns, S: SumColumns>(
    fields: &mut ByteRecord,
    scratch: &mut String,
    heap: Global,
    columns: &C,
    sums: &S,
    place: &Group,
) -> Result<(), AllocError>
    ensures { OnOk result ((own : Step → List (List ℕ)) → C.shows columns.now place.now.first (own place.now.first)
        → fields_of fields.new ≡ place_fields own S.shown place.now) }
{
    fields.clear();
    push_instruction(fields, scratch, place.first.pc, place.first.instr)?;
    columns.push_fields(fields, heap, &place.first)?;
    sums.push_sum(fields, scratch, &place.sum)
}

/// Writes the record of an address.
fn put_place<A: Allocator, C: StepColumns, S: SumColumns>(
    writer: &mut Writer<Vec<u8, A>>,
    record: &mut ByteRecord,
    scratch: &mut String,
    heap: Global,
    columns: &C,
    sums: &S,
    place: &Group,
) -> Result<(), AllocError>
    requires ready { IsReady writer.old }
    ensures ready { OnOk result (IsReady writer.new) }
    ensures text { OnOk result ((own : Step → List (List ℕ)) → C.shows columns.now place.now.first (own place.now.first)
        → Writes (record_text (place_fields own S.shown place.now)) writer.old writer.new) }
{
    fill_place(record, scratch, heap, columns, sums, place)?;
    put_record(writer, record)
}

/// Writes the records of the addresses, in ascending order.
pub fn put_places<A: Allocator, C: StepColumns, S: SumColumns>(
    writer: &mut Writer<Vec<u8, A>>,
    heap: Global,
    columns: &C,
    sums: &S,
    tally: &Tally<A>,
) -> Result<(), AllocError>
    requires ready { IsReady writer.old }
    ensures ready { OnOk result (IsReady writer.new) }
    ensures text { OnOk result ((own : Step → List (List ℕ))
        → All (λ place. C.shows columns.now place.first (own place.first)) (values tally.now.groups)
        → Writes (flat_map (λ place. record_text (place_fields own S.shown place)) (values tally.now.groups)) writer.old
        writer.new) }
    ensures order { OnOk result (IsOrdered nat_cmp tally.now.groups) }
{
    let mut record = ByteRecord::new(heap);
    let mut scratch = String::new(heap);
    for place in tally.groups.values() {
        put_place(
            writer,
            &mut record,
            &mut scratch,
            heap,
            columns,
            sums,
            place,
        )?;
    }
    Ok(())
}

/// Writes the names of the columns, of which these are additional ones.
pub fn put_header<A: Allocator, S: SumColumns>(
    writer: &mut Writer<Vec<u8, A>>,
    heap: Global,
    names: &[&str],
    sums: &S,
) -> Result<(), AllocError>
    requires ready { IsReady writer.old }
    ensures ready { OnOk result (IsReady writer.new) }
    ensures text { OnOk result (Writes
        (record_text (codes "pc" ∷ codes "instr" ∷ map (λ n. n.now) names.now ++ S.names)) writer.old writer.new) }
{
    let mut record = ByteRecord::new(heap);
    push_names(&mut record, &["pc", "instr"])?;
    push_names(&mut record, names)?;
    sums.push_names(&mut record)?;
    put_record(writer, &record)
}

/// Adds a dash for each of these columns.
pub fn push_dashes(fields: &mut ByteRecord, names: &[&str]) -> Result<(), AllocError>
    requires { partial_of fields.old ≡ [] }
    ensures fields { OnOk result (fields_of fields.new
        ≡ fields_of fields.old ++ dashes (map (λ n. n.now) names.now)) }
    ensures whole { OnOk result (partial_of fields.new ≡ []) }
{
    for _name in names {
        fields.push_field(b"-")?;
    }
    Ok(())
}

/// Writes the record of a sum that isn't of a place.
pub fn put_last<A: Allocator, S: SumColumns>(
    writer: &mut Writer<Vec<u8, A>>,
    heap: Global,
    title: &str,
    names: &[&str],
    sums: &S,
    sum: &Sum,
) -> Result<(), AllocError>
    requires ready { IsReady writer.old }
    ensures ready { OnOk result (IsReady writer.new) }
    ensures text { OnOk result (Writes
        (record_text (title.now ∷ codes "-" ∷ dashes (map (λ n. n.now) names.now) ++ S.shown sum.now)) writer.old
        writer.new) }
{
    let mut record = ByteRecord::new(heap);
    push_names(&mut record, &[title, "-"])?;
    push_dashes(&mut record, names)?;
    sums.push_sum(&mut record, &mut String::new(heap), sum)?;
    put_record(writer, &record)
}
