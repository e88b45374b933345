//! The columns of sums over steps, and records that end with them.

ghost use Rattle.std.specs.Prelude.{◌≡◌, ◌++◌, ℕ, List, [], OnOk, map};
ghost use Rattle.csv.specs.Records.{fields_of, partial_of};
ghost use Rattle.tomex_layout.specs.Csv.{IsReady, record_text};
ghost use Rattle.tomex_layout.specs.Growth.{Writes};
ghost use Rattle.tomex_run_views.specs.ByPlace.{sum_columns};
ghost use Rattle.tomex_run_views.specs.Tally.{fields_of_sum};
ghost use Rattle.tomex_run_views.specs.declared.tally.Sum.{Sum};

use crate::columns::{SUM_COLUMNS, push_sum};
use crate::tally::Sum;
use csv::{ByteRecord, Writer};
use std::alloc::{AllocError, Allocator, Global};
use tomex_layout::{push_names, put_record};

/// Columns of a sum, such as that of the steps at one address.
pub trait SumColumns {
    /// Their names.
    ghost names: { List (List ℕ) };
    /// Their fields.
    ghost shown: { Sum → List (List ℕ) };

    /// Adds the names.
    fn push_names(&self, fields: &mut ByteRecord) -> Result<(), AllocError>
        requires { partial_of fields.old ≡ [] }
        ensures fields { OnOk result (fields_of fields.new ≡ fields_of fields.old ++ names) }
        ensures whole { OnOk result (partial_of fields.new ≡ []) };

    /// Adds the fields of a sum.
    fn push_sum(
        &self,
        fields: &mut ByteRecord,
        scratch: &mut String,
        sum: &Sum,
    ) -> Result<(), AllocError>
        requires { partial_of fields.old ≡ [] }
        ensures fields { OnOk result (fields_of fields.new ≡ fields_of fields.old ++ shown sum.now) }
        ensures whole { OnOk result (partial_of fields.new ≡ []) };
}

/// How many steps there are, how many cycles they take, and how long they wait.
#[derive(Clone, Copy, Drop)]
pub struct WaitColumns;

impl SumColumns for WaitColumns {
    ghost names = { sum_columns };

    ghost shown = { fields_of_sum };

    fn push_names(&self, fields: &mut ByteRecord) -> Result<(), AllocError> {
        push_names(fields, &SUM_COLUMNS)
    }

    fn push_sum(
        &self,
        fields: &mut ByteRecord,
        scratch: &mut String,
        sum: &Sum,
    ) -> Result<(), AllocError> {
        push_sum(fields, scratch, sum)
    }
}

/// Writes the names of the columns, of which the last ones are those of a sum.
pub fn put_columns<A: Allocator, S: SumColumns>(
    writer: &mut Writer<Vec<u8, A>>,
    heap: Global,
    names: &[&str],
    sums: &S,
) -> Result<(), AllocError>
    requires ready { IsReady writer.old }
    ensures ready { OnOk result (IsReady writer.new) }
    ensures text { OnOk result (Writes (record_text (map (λ n. n.now) names.now ++ S.names)) writer.old writer.new) }
{
    let mut record = ByteRecord::new(heap);
    push_names(&mut record, names)?;
    sums.push_names(&mut record)?;
    put_record(writer, &record)
}

/// Writes a record of some names and a sum.
pub fn put_sum<A: Allocator, S: SumColumns>(
    writer: &mut Writer<Vec<u8, A>>,
    heap: Global,
    names: &[&str],
    sums: &S,
    sum: &Sum,
) -> Result<(), AllocError>
    requires ready { IsReady writer.old }
    ensures ready { OnOk result (IsReady writer.new) }
    ensures text { OnOk result (
        Writes (record_text (map (λ n. n.now) names.now ++ S.shown sum.now)) writer.old writer.new) }
{
    let mut record = ByteRecord::new(heap);
    push_names(&mut record, names)?;
    sums.push_sum(&mut record, &mut String::new(heap), sum)?;
    put_record(writer, &record)
}
