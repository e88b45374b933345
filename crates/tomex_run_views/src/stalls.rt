//! The stalls report of a run on one configuration, with its floors.

ghost use Rattle.std.specs.Prelude.{◌≡◌, ◌≤◌, ◌++◌, ◌∷◌, [], ℕ, List, IfOk, OnOk, length};
ghost use Rattle.std.specs.List.{flat_map};
ghost use Rattle.csv.specs.Records.{fields_of, partial_of};
ghost use Rattle.tomex_rvdec.specs.declared.pool.UnitId.{UnitId};
ghost use Rattle.tomex_rvexec.specs.declared.step.Step.{Step};
ghost use Rattle.tomex_rvexec.specs.Run.{most_steps};
ghost use Rattle.tomex_config.specs.Parts.{all_parts};
ghost use Rattle.tomex_floor.specs.Floor.{floors_by_width};
ghost use Rattle.tomex_config.specs.Configuration.{latency_of};
ghost use Rattle.tomex_layout.specs.Csv.{IsReady, record_text};
ghost use Rattle.tomex_layout.specs.Growth.{Appends, Writes};
ghost use Rattle.tomex_run_views.specs.StallsReport.{IsStallsReport, floor_record, floor_records, header};
ghost use Rattle.tomex_run_views.specs.StallsReport.{name_of_part, other_record, other_records};
ghost use Rattle.tomex_run_views.specs.StallsReport.{part_fields, part_record, report_of_needs};

use csv::{ByteRecord, Writer};
use std::alloc::{AllocError, Allocator, Global};
use std::fmt::Write;
use tomex_config::{Config, Part};
use tomex_floor::floors;
use tomex_layout::{into_text, push_decimal, push_names, put_record};
use tomex_timing::{Needs, Run};

/// Writes the names of the columns.
fn put_header<A: Allocator>(writer: &mut Writer<Vec<u8, A>>, heap: Global) -> Result<(), AllocError>
    requires ready { IsReady writer.old }
    ensures ready { OnOk result (IsReady writer.new) }
    ensures text { OnOk result (Writes (record_text header) writer.old writer.new) }
{
    let mut record = ByteRecord::new(heap);
    push_names(&mut record, &["part", "count", "peak", "stalls"])?;
    put_record(writer, &record)
}

/// Adds a part's name, which is that of its column in the front report.
pub fn push_name_of_part<A: Allocator>(text: &mut String<A>, part: Part) -> Result<(), AllocError>
    ensures { OnOk result (Appends (name_of_part part) text.old text.new) }
{
    match part {
        Part::Stations(pool) => write!(text, "{pool}"),
        Part::Units(unit) => write!(text, "{unit}_units"),
        Part::Buses => text.push_str("buses"),
        Part::Width => text.push_str("width"),
    }
}

/// Adds a part's name as a field.
fn push_part(fields: &mut ByteRecord, scratch: &mut String, part: Part) -> Result<(), AllocError>
    requires { partial_of fields.old ≡ [] }
    ensures fields { OnOk result (fields_of fields.new
        ≡ fields_of fields.old ++ name_of_part part ∷ []) }
    ensures whole { OnOk result (partial_of fields.new ≡ []) }
{
    scratch.clear();
    push_name_of_part(scratch, part)?;
    fields.push_field(scratch.as_bytes())
}

/// Makes a record the one of a part.
fn fill_part(
    fields: &mut ByteRecord,
    scratch: &mut String,
    config: &Config,
    needs: &Needs,
    part: Part,
) -> Result<(), AllocError>
    ensures { OnOk result (fields_of fields.new ≡ part_fields config.now needs.now part) }
{
    let need = needs.need(part);
    fields.clear();
    push_part(fields, scratch, part)?;
    push_decimal(fields, scratch, part.count(config))?;
    push_decimal(fields, scratch, need.peak)?;
    push_decimal(fields, scratch, need.stalls)?;
    Ok(())
}

/// Writes the record of a part.
#[tactic(auto, unfolding(crate::specs::StallsReport::part_record))]
fn put_part<A: Allocator>(
    writer: &mut Writer<Vec<u8, A>>,
    record: &mut ByteRecord,
    scratch: &mut String,
    config: &Config,
    needs: &Needs,
    part: Part,
) -> Result<(), AllocError>
    requires ready { IsReady writer.old }
    ensures ready { OnOk result (IsReady writer.new) }
    ensures text { OnOk result (Writes (part_record config.now needs.now part) writer.old writer.new) }
{
    fill_part(record, scratch, config, needs, part)?;
    put_record(writer, record)
}

/// Writes the records of the parts.
fn put_parts<A: Allocator>(
    writer: &mut Writer<Vec<u8, A>>,
    heap: Global,
    config: &Config,
    needs: &Needs,
) -> Result<(), AllocError>
    requires ready { IsReady writer.old }
    ensures ready { OnOk result (IsReady writer.new) }
    ensures text { OnOk result (Writes (flat_map (part_record config.now needs.now) all_parts) writer.old writer.new) }
{
    let mut record = ByteRecord::new(heap);
    let mut scratch = String::new(heap);
    for part in Part::ALL {
        put_part(writer, &mut record, &mut scratch, config, needs, part)?;
    }
    Ok(())
}

/// Writes the record of cycles that are no part's.
#[tactic(auto, unfolding(crate::specs::StallsReport::other_record))]
fn put_other<A: Allocator>(
    writer: &mut Writer<Vec<u8, A>>,
    heap: Global,
    name: &str,
    cycles: u64,
) -> Result<(), AllocError>
    requires ready { IsReady writer.old }
    ensures ready { OnOk result (IsReady writer.new) }
    ensures text { OnOk result (Writes (other_record name.now cycles) writer.old writer.new) }
{
    let mut record = ByteRecord::new(heap);
    push_names(&mut record, &[name, "-", "-"])?;
    push_decimal(&mut record, &mut String::new(heap), cycles)?;
    put_record(writer, &record)
}

/// Writes the records of what is no part: the other causes of waits, the drain and the total.
fn put_others<A: Allocator>(
    writer: &mut Writer<Vec<u8, A>>,
    heap: Global,
    needs: &Needs,
) -> Result<(), AllocError>
    requires ready { IsReady writer.old }
    ensures ready { OnOk result (IsReady writer.new) }
    ensures text { OnOk result (Writes (other_records needs.now) writer.old writer.new) }
{
    put_other(writer, heap, "branch", needs.branch)?;
    put_other(writer, heap, "operand", needs.operand)?;
    put_other(writer, heap, "address", needs.address)?;
    put_other(writer, heap, "memory", needs.memory)?;
    put_other(writer, heap, "drain", needs.drain())?;
    put_other(writer, heap, "total", needs.total)
}

/// Writes the record of the floor for an issue width.
#[tactic(auto, unfolding(crate::specs::StallsReport::floor_record))]
fn put_floor<A: Allocator>(
    writer: &mut Writer<Vec<u8, A>>,
    heap: Global,
    width: u64,
    cycles: u64,
) -> Result<(), AllocError>
    requires ready { IsReady writer.old }
    ensures ready { OnOk result (IsReady writer.new) }
    ensures text { OnOk result (Writes (floor_record width cycles) writer.old writer.new) }
{
    let mut record = ByteRecord::new(heap);
    let mut scratch = String::new(heap);
    push_names(&mut record, &["floor"])?;
    push_decimal(&mut record, &mut scratch, width)?;
    push_names(&mut record, &["-"])?;
    push_decimal(&mut record, &mut scratch, cycles)?;
    put_record(writer, &record)
}

/// Writes the records of the floors, which are those for the issue widths from 1 to 4.
fn put_floors<A: Allocator>(
    writer: &mut Writer<Vec<u8, A>>,
    heap: Global,
    floors: &[u64; 4],
) -> Result<(), AllocError>
    requires { IsReady writer.old }
    ensures { OnOk result ((latency : UnitId → ℕ) (steps : List Step)
        → floors.now ≡ floors_by_width latency steps → Writes (floor_records latency steps) writer.old writer.new) }
{
    put_floor(writer, heap, 1, floors[0])?;
    put_floor(writer, heap, 2, floors[1])?;
    put_floor(writer, heap, 3, floors[2])?;
    put_floor(writer, heap, 4, floors[3])
}

/// Writes the report of these needs and floors.
fn put_needs<A: Allocator>(
    writer: &mut Writer<Vec<u8, A>>,
    heap: Global,
    config: &Config,
    needs: &Needs,
    floors: &[u64; 4],
) -> Result<(), AllocError>
    requires { IsReady writer.old }
    ensures { OnOk result ((steps : List Step) → floors.now ≡ floors_by_width (latency_of config.now) steps
        → Writes (report_of_needs config.now needs.now steps) writer.old writer.new) }
{
    put_header(writer, heap)?;
    put_parts(writer, heap, config, needs)?;
    put_others(writer, heap, needs)?;
    put_floors(writer, heap, floors)
}

/// The report of these needs and floors.
fn text_of_needs<A: Allocator>(
    alloc: A,
    heap: Global,
    config: &Config,
    needs: &Needs,
    floors: &[u64; 4],
) -> Result<Vec<u8, A>, AllocError>
    ensures { IfOk result (λ text. (steps : List Step)
        → floors.now ≡ floors_by_width (latency_of config.now) steps
        → text.items ≡ report_of_needs config.now needs.now steps) }
{
    let mut writer = Writer::from_writer(Vec::new(alloc));
    put_needs(&mut writer, heap, config, needs, floors)?;
    into_text(writer)
}

/// The stalls report of a run on a configuration: CSV with a header, a record for each part with how many the
/// configuration has, how many of them the run takes at once at most, and for how many cycles its steps wait for one;
/// then the cycles that they wait for what is no part, the drain, which is the cycles after the last issue, and the
/// total; last the floors for the issue widths from 1 to 4.
///
/// `csv` allocates its records in `heap`.
pub fn stalls_report<A: Allocator + Clone>(
    alloc: A,
    heap: Global,
    run: &Run<A>,
    config: &Config,
) -> Result<Vec<u8, A>, AllocError>
    requires few { length run.now ≤ most_steps }
    ensures { IfOk result (λ text. IsStallsReport config.now run.now text.items) }
{
    let needs = run.needs(&alloc, config)?;
    let floors = floors(alloc.clone()?, run, config)?;
    text_of_needs(alloc, heap, config, &needs, &floors)
}
