//! The names of the columns.

ghost use Rattle.std.specs.Prelude.{◌≡◌, ◌++◌, ◌∷◌, [], map, IfOk, OnOk};
ghost use Rattle.csv.specs.Records.{fields_of, partial_of};
ghost use Rattle.tomex_texts.specs.RowsReport.{columns_of, cycles_column};

use crate::front_header::push_row_columns;
use csv::ByteRecord;
use std::alloc::{AllocError, Allocator, Global};
use tomex_layout::push_names;
use tomex_study::{Program, Study};

/// Adds the name of the column of a program's cycles.
fn push_cycles_column<A: Allocator>(
    fields: &mut ByteRecord,
    scratch: &mut String,
    program: &Program<A>,
) -> Result<(), AllocError>
    requires { partial_of fields.old ≡ [] }
    ensures fields { OnOk result (fields_of fields.new
        ≡ fields_of fields.old ++ cycles_column program.now ∷ []) }
    ensures whole { OnOk result (partial_of fields.new ≡ []) }
{
    scratch.clear();
    scratch.push_str(program.name())?;
    scratch.push_str("_cycles")?;
    fields.push_field(scratch.as_bytes())
}

/// Adds the names of the columns of each program's cycles.
fn push_cycles_columns<A: Allocator>(
    fields: &mut ByteRecord,
    heap: Global,
    programs: &[Program<A>],
) -> Result<(), AllocError>
    requires { partial_of fields.old ≡ [] }
    ensures fields { OnOk result (fields_of fields.new
        ≡ fields_of fields.old ++ map cycles_column programs.now) }
    ensures whole { OnOk result (partial_of fields.new ≡ []) }
{
    let mut scratch = String::new(heap);
    for program in programs {
        push_cycles_column(fields, &mut scratch, program)?;
    }
    Ok(())
}

/// The names of all columns.
#[tactic(auto, unfolding(crate::specs::RowsReport::columns_of))]
pub(crate) fn columns<A: Allocator>(
    heap: Global,
    study: &Study<A>,
) -> Result<ByteRecord, AllocError>
    ensures { IfOk result (λ made. fields_of made ≡ columns_of study.now) }
{
    let mut fields = ByteRecord::new(heap);
    push_row_columns(&mut fields, study.wide())?;
    push_cycles_columns(&mut fields, heap, study.programs())?;
    push_names(&mut fields, ["front", "hull"].as_slice())?;
    Ok(fields)
}
