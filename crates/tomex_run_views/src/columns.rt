//! The fields of sums over steps.

ghost use Rattle.std.specs.Prelude.{◌≡◌, ◌++◌, [], OnOk, map};
ghost use Rattle.std.specs.Fmt.{decimal};
ghost use Rattle.csv.specs.Records.{fields_of, partial_of};
ghost use Rattle.tomex_run_views.specs.Tally.{fields_of_sum};

use crate::tally::Sum;
use csv::ByteRecord;
use std::alloc::AllocError;
use tomex_layout::push_decimal;

/// The names of the columns of a sum.
pub const SUM_COLUMNS: [&str; 10] = [
    "steps", "cycles", "branch", "width", "station", "operand", "address", "memory", "unit", "bus",
];

/// Adds a field of decimal digits for each of these numbers.
pub fn push_decimals(
    fields: &mut ByteRecord,
    scratch: &mut String,
    numbers: &[u64],
) -> Result<(), AllocError>
    requires { partial_of fields.old ≡ [] }
    ensures fields { OnOk result (fields_of fields.new
        ≡ fields_of fields.old ++ map decimal numbers.now) }
    ensures whole { OnOk result (partial_of fields.new ≡ []) }
{
    for number in numbers {
        push_decimal(fields, scratch, *number)?;
    }
    Ok(())
}

/// Adds how many steps there are, how many cycles they take, and how long they wait.
pub fn push_sum(fields: &mut ByteRecord, scratch: &mut String, sum: &Sum) -> Result<(), AllocError>
    requires { partial_of fields.old ≡ [] }
    ensures fields { OnOk result (fields_of fields.new ≡ fields_of fields.old ++ fields_of_sum sum.now) }
    ensures whole { OnOk result (partial_of fields.new ≡ []) }
{
    let waits = &sum.waits;
    let numbers = [
        sum.steps,
        sum.cycles,
        waits.branch,
        waits.width,
        waits.station,
        waits.operand,
        waits.address,
        waits.memory,
        waits.unit,
        waits.bus,
    ];
    push_decimals(fields, scratch, &numbers)
}
