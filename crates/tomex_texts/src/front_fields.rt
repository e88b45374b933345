//! The fields of the front report's records.

ghost use Rattle.std.specs.Prelude.{◌≡◌, ◌++◌, ◌∷◌, [], OnOk, length, map};
ghost use Rattle.csv.specs.Records.{fields_of, partial_of};
ghost use Rattle.tomex_study.specs.Watch.{watched_bytes};
ghost use Rattle.tomex_texts.specs.Ends.{IsProgramEnd};
ghost use Rattle.tomex_texts.specs.FrontReport.{end_fields, if_wide, program_fields, row_fields};
ghost use Rattle.std.specs.Fmt.{decimal};

use crate::end_texts::{registers_text, watch_text};
use crate::ends::ProgramEnd;
use crate::row_numbers::push_row_numbers;
use csv::ByteRecord;
use std::alloc::{AllocError, Allocator, Global};
use std::fmt::Write;
use tomex_config::Config;
use tomex_layout::push_decimal;
use tomex_pareto::FrontRow;
use tomex_study::{Program, WatchRange};

/// Adds each of these numbers.
fn push_decimals(
    fields: &mut ByteRecord,
    scratch: &mut String,
    numbers: &[u64],
) -> Result<(), AllocError>
    requires { partial_of fields.old ≡ [] }
    ensures fields { OnOk result (fields_of fields.new ≡ fields_of fields.old ++ map decimal numbers.now) }
    ensures whole { OnOk result (partial_of fields.new ≡ []) }
{
    for number in numbers {
        push_decimal(fields, scratch, *number)?;
    }
    Ok(())
}

/// Adds a number to a record of a report that shows widths and weights.
fn push_if_wide(
    fields: &mut ByteRecord,
    scratch: &mut String,
    wide: bool,
    number: u64,
) -> Result<(), AllocError>
    requires { partial_of fields.old ≡ [] }
    ensures fields { OnOk result (fields_of fields.new
        ≡ fields_of fields.old ++ if_wide wide (decimal number)) }
    ensures whole { OnOk result (partial_of fields.new ≡ []) }
{
    if wide {
        push_decimal(fields, scratch, number)?;
    }
    Ok(())
}

/// Adds a row's number, cost and cycles, and its parts.
fn push_row(
    fields: &mut ByteRecord,
    heap: Global,
    scratch: &mut String,
    wide: bool,
    front: FrontRow,
    config: &Config,
) -> Result<(), AllocError>
    requires { partial_of fields.old ≡ [] }
    ensures fields { OnOk result (fields_of fields.new
        ≡ fields_of fields.old ++ row_fields wide front config.now) }
    ensures whole { OnOk result (partial_of fields.new ≡ []) }
{
    let mut numbers = Vec::new(heap);
    push_row_numbers(&mut numbers, wide, front, config)?;
    push_decimals(fields, scratch, numbers.as_slice())
}

/// Adds the fields of the end of a program that watches these ranges.
fn push_end<A: Allocator>(
    fields: &mut ByteRecord,
    scratch: &mut String,
    heap: Global,
    ranges: &[WatchRange],
    end: &ProgramEnd<A>,
) -> Result<(), AllocError>
    requires whole { partial_of fields.old ≡ [] }
    requires watched { length end.now.watched.items ≡ watched_bytes ranges.now }
    ensures fields { OnOk result (fields_of fields.new
        ≡ fields_of fields.old ++ end_fields ranges.now end.now) }
    ensures whole { OnOk result (partial_of fields.new ≡ []) }
{
    push_decimal(fields, scratch, u64::from(end.steps))?;
    push_decimal(fields, scratch, end.total)?;
    let kind = end.kind;
    scratch.clear();
    write!(scratch, "{kind}")?;
    fields.push_field(scratch.as_bytes())?;
    fields.push_field(registers_text(heap, end.regs.as_slice())?.as_bytes())?;
    fields.push_field(watch_text(heap, ranges, end.watched.as_slice())?.as_bytes())?;
    Ok(())
}

/// Fills a record with the fields of a program on a front row.
pub fn fill_record<A: Allocator>(
    fields: &mut ByteRecord,
    heap: Global,
    wide: bool,
    front: FrontRow,
    config: &Config,
    program: &Program<A>,
    end: &ProgramEnd<A>,
) -> Result<(), AllocError>
    requires { IsProgramEnd config.now program.now end.now }
    ensures { OnOk result (fields_of fields.new
        ≡ row_fields wide front config.now ++ program_fields wide config.now program.now) }
{
    program.keeps_limits();
    program.image().fills_its_window();
    let mut scratch = String::new(heap);
    fields.clear();
    push_row(fields, heap, &mut scratch, wide, front, config)?;
    fields.push_field(program.name().as_bytes())?;
    push_if_wide(fields, &mut scratch, wide, u64::from(program.weight()))?;
    push_end(fields, &mut scratch, heap, program.watch(), end)?;
    Ok(())
}
