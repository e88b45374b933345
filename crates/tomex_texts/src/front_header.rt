//! The names of the front report's columns.

ghost use Rattle.std.specs.Prelude.{◌≡◌, ◌++◌, [], IfOk, OnOk, map};
ghost use Rattle.csv.specs.Records.{fields_of, partial_of};
ghost use Rattle.tomex_texts.specs.FrontReport.{if_wide, program_columns, row_columns};

use csv::ByteRecord;
use std::alloc::{AllocError, Global};
use tomex_layout::push_names;

/// Adds a name to a record of a report that shows widths and weights.
fn push_if_wide(fields: &mut ByteRecord, wide: bool, name: &str) -> Result<(), AllocError>
    requires { partial_of fields.old ≡ [] }
    ensures fields { OnOk result (fields_of fields.new
        ≡ fields_of fields.old ++ if_wide wide name.now) }
    ensures whole { OnOk result (partial_of fields.new ≡ []) }
{
    if wide {
        fields.push_field(name.as_bytes())?;
    }
    Ok(())
}

/// Adds the names of the columns of a row.
pub fn push_row_columns(fields: &mut ByteRecord, wide: bool) -> Result<(), AllocError>
    requires { partial_of fields.old ≡ [] }
    ensures fields { OnOk result (fields_of fields.new ≡ fields_of fields.old ++ row_columns wide) }
    ensures whole { OnOk result (partial_of fields.new ≡ []) }
{
    let row = [
        "row",
        "cost",
        "cycles",
        "alu",
        "mul",
        "div",
        "load",
        "store",
        "bru",
        "alu_units",
        "alu_latency",
        "mul_units",
        "mul_latency",
        "div_units",
        "div_latency",
        "mem_units",
        "mem_latency",
        "bru_units",
        "bru_latency",
        "buses",
    ];
    push_names(fields, row.as_slice())?;
    push_if_wide(fields, wide, "width")
}

/// The names of the columns.
pub fn columns(heap: Global, wide: bool) -> Result<ByteRecord, AllocError>
    ensures { IfOk result (λ made. fields_of made ≡ row_columns wide ++ program_columns wide) }
{
    let mut record = ByteRecord::new(heap);
    push_row_columns(&mut record, wide)?;
    push_names(&mut record, ["program"].as_slice())?;
    push_if_wide(&mut record, wide, "weight")?;
    let end = ["steps", "program_cycles", "end", "regs", "watch"];
    push_names(&mut record, end.as_slice())?;
    Ok(record)
}
