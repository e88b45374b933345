//! The records of a report by function.

ghost use Rattle.std.specs.Prelude.{◌≡◌, ◌++◌, ◌∷◌, [], ℕ, List, OnOk};
ghost use Rattle.std.specs.List.{flat_map};
ghost use Rattle.csv.specs.Records.{fields_of, partial_of};
ghost use Rattle.tomex_layout.specs.Csv.{IsReady, record_text};
ghost use Rattle.tomex_layout.specs.Growth.{Writes};
ghost use Rattle.tomex_functions.specs.ByFunction.{address_field};
ghost use Rattle.tomex_functions.specs.Kept.{fields_by};
ghost use Rattle.tomex_functions.specs.declared.rows.Row.{Row};

use crate::rows::Row;
use crate::shown_names::push_function;
use csv::{ByteRecord, Writer};
use std::alloc::{AllocError, Allocator, Global};
use std::fmt::Write;
use tomex_layout::put_record;
use tomex_symbols::Symbol;

/// Columns of a function's row, after its address and its name.
pub trait RowColumns {
    /// Their fields.
    ghost shown: { Row → List (List ℕ) };

    /// Adds the fields of a row.
    fn push_row(
        &self,
        fields: &mut ByteRecord,
        scratch: &mut String,
        row: &Row,
    ) -> Result<(), AllocError>
        requires { partial_of fields.old ≡ [] }
        ensures fields { OnOk result (fields_of fields.new ≡ fields_of fields.old ++ shown row.now) }
        ensures whole { OnOk result (partial_of fields.new ≡ []) };
}

/// Adds the address of a function, or `-` of none.
pub fn push_address(
    fields: &mut ByteRecord,
    scratch: &mut String,
    function: &Option<Symbol>,
) -> Result<(), AllocError>
    requires { partial_of fields.old ≡ [] }
    ensures fields { OnOk result (fields_of fields.new
        ≡ fields_of fields.old ++ address_field function.now ∷ []) }
    ensures whole { OnOk result (partial_of fields.new ≡ []) }
{
    match function {
        Some(symbol) => {
            let address = symbol.address;
            scratch.clear();
            write!(scratch, "{address:08x}")?;
            fields.push_field(scratch.as_bytes())
        }
        None => fields.push_field(b"-"),
    }
}

/// Makes a record the one of a function.
fn fill_row<C: RowColumns>(
    fields: &mut ByteRecord,
    scratch: &mut String,
    heap: Global,
    file: &[u8],
    columns: &C,
    row: &Row,
) -> Result<(), AllocError>
    ensures { OnOk result (fields_of fields.new ≡ fields_by C.shown file.now row.now) }
{
    fields.clear();
    push_address(fields, scratch, &row.function)?;
    push_function(fields, heap, file, &row.function)?;
    columns.push_row(fields, scratch, row)
}

/// Writes the record of a function.
fn put_row<A: Allocator, C: RowColumns>(
    writer: &mut Writer<Vec<u8, A>>,
    record: &mut ByteRecord,
    scratch: &mut String,
    heap: Global,
    file: &[u8],
    columns: &C,
    row: &Row,
) -> Result<(), AllocError>
    requires ready { IsReady writer.old }
    ensures ready { OnOk result (IsReady writer.new) }
    ensures text { OnOk result (Writes (record_text (fields_by C.shown file.now row.now)) writer.old writer.new) }
{
    fill_row(record, scratch, heap, file, columns, row)?;
    put_record(writer, record)
}

/// Writes the records of the functions.
pub fn put_rows<A: Allocator, C: RowColumns>(
    writer: &mut Writer<Vec<u8, A>>,
    heap: Global,
    file: &[u8],
    columns: &C,
    rows: &[Row],
) -> Result<(), AllocError>
    requires ready { IsReady writer.old }
    ensures ready { OnOk result (IsReady writer.new) }
    ensures text { OnOk result (
        Writes (flat_map (λ row. record_text (fields_by C.shown file.now row)) rows.now) writer.old writer.new) }
{
    let mut record = ByteRecord::new(heap);
    let mut scratch = String::new(heap);
    for row in rows {
        put_row(writer, &mut record, &mut scratch, heap, file, columns, row)?;
    }
    Ok(())
}
