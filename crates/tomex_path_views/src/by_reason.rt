//! The report of a run's path by what its steps had waited for.

ghost use Rattle.std.specs.Prelude.{◌≡◌, ◌≤◌, ◌++◌, ◌∷◌, [], codes, IfOk, OnOk, length};
ghost use Rattle.std.specs.List.{flat_map};
ghost use Rattle.csv.specs.Records.{fields_of, partial_of};
ghost use Rattle.tomex_rvexec.specs.Run.{most_steps};
ghost use Rattle.tomex_rvdec.specs.Places.{name_of_unit};
ghost use Rattle.tomex_config.specs.Cost.{all_units};
ghost use Rattle.tomex_layout.specs.Csv.{IsReady, record_text};
ghost use Rattle.tomex_layout.specs.Growth.{Appends, Writes};
ghost use Rattle.tomex_path.specs.Laws.{all_reasons};
ghost use Rattle.tomex_path_views.specs.ByReason.{IsPathReport, count_field, fields_of_share, header};
ghost use Rattle.tomex_path_views.specs.ByReason.{latency_fields, latency_record, name_of_reason, reason_fields};
ghost use Rattle.tomex_path_views.specs.ByReason.{reason_record, report_by_reason};
ghost use Rattle.tomex_path_views.specs.Shares.{AreShort, share_of};

use crate::shares::{Share, operations, share_of, whole_share};
use csv::{ByteRecord, Writer};
use std::alloc::{AllocError, Allocator, Global};
use std::fmt::Write;
use tomex_config::{Config, Part};
use tomex_layout::{into_text, push_decimal, push_names, put_record};
use tomex_path::{Link, Reason, path};
use tomex_run_views::push_name_of_part;
use tomex_rvdec::{PoolId, UnitId};
use tomex_timing::Run;

/// The reasons, in the order of the report.
pub const REASONS: [Reason; 18] = [
    Reason::For(Part::Stations(PoolId::Alu)),
    Reason::For(Part::Stations(PoolId::Mul)),
    Reason::For(Part::Stations(PoolId::Div)),
    Reason::For(Part::Stations(PoolId::Load)),
    Reason::For(Part::Stations(PoolId::Store)),
    Reason::For(Part::Stations(PoolId::Bru)),
    Reason::For(Part::Units(UnitId::Alu)),
    Reason::For(Part::Units(UnitId::Mul)),
    Reason::For(Part::Units(UnitId::Div)),
    Reason::For(Part::Units(UnitId::Mem)),
    Reason::For(Part::Units(UnitId::Bru)),
    Reason::For(Part::Buses),
    Reason::For(Part::Width),
    Reason::Branch,
    Reason::Operand,
    Reason::Address,
    Reason::Memory,
    Reason::Order,
];

/// Adds a reason's name: that of a part is that of its column in the front report.
pub fn push_name_of_reason<A: Allocator>(
    text: &mut String<A>,
    reason: Reason,
) -> Result<(), AllocError>
    ensures { OnOk result (Appends (name_of_reason reason) text.old text.new) }
{
    match reason {
        Reason::For(part) => push_name_of_part(text, part),
        Reason::Branch => text.push_str("branch"),
        Reason::Operand => text.push_str("operand"),
        Reason::Address => text.push_str("address"),
        Reason::Memory => text.push_str("memory"),
        Reason::Order => text.push_str("order"),
    }
}

/// Adds a reason's name as a field.
pub fn push_reason(
    fields: &mut ByteRecord,
    scratch: &mut String,
    reason: Reason,
) -> Result<(), AllocError>
    requires { partial_of fields.old ≡ [] }
    ensures fields { OnOk result (fields_of fields.new
        ≡ fields_of fields.old ++ name_of_reason reason ∷ []) }
    ensures whole { OnOk result (partial_of fields.new ≡ []) }
{
    scratch.clear();
    push_name_of_reason(scratch, reason)?;
    fields.push_field(scratch.as_bytes())
}

/// Adds how many of a part the machine has, or `-` for what is no part.
fn push_count(
    fields: &mut ByteRecord,
    scratch: &mut String,
    config: &Config,
    reason: Reason,
) -> Result<(), AllocError>
    requires { partial_of fields.old ≡ [] }
    ensures fields { OnOk result (fields_of fields.new
        ≡ fields_of fields.old ++ count_field config.now reason ∷ []) }
    ensures whole { OnOk result (partial_of fields.new ≡ []) }
{
    match reason {
        Reason::For(part) => push_decimal(fields, scratch, part.count(config)),
        _ => fields.push_field(b"-"),
    }
}

/// Adds what some links have together.
fn push_share(
    fields: &mut ByteRecord,
    scratch: &mut String,
    share: &Share,
) -> Result<(), AllocError>
    requires { partial_of fields.old ≡ [] }
    ensures fields { OnOk result (fields_of fields.new
        ≡ fields_of fields.old ++ fields_of_share share.now) }
    ensures whole { OnOk result (partial_of fields.new ≡ []) }
{
    push_decimal(fields, scratch, share.links)?;
    push_decimal(fields, scratch, share.waits)?;
    push_decimal(fields, scratch, share.cycles)
}

/// Makes a record the one of a reason.
fn fill_reason(
    fields: &mut ByteRecord,
    scratch: &mut String,
    config: &Config,
    path: &[Link],
    reason: Reason,
) -> Result<(), AllocError>
    requires { AreShort path.now }
    ensures { OnOk result (fields_of fields.new ≡ reason_fields config.now path.now reason) }
{
    fields.clear();
    push_reason(fields, scratch, reason)?;
    push_count(fields, scratch, config, reason)?;
    push_share(fields, scratch, &share_of(path, reason))
}

/// Writes the record of a reason.
#[tactic(auto, unfolding(crate::specs::ByReason::reason_record))]
fn put_reason<A: Allocator>(
    writer: &mut Writer<Vec<u8, A>>,
    record: &mut ByteRecord,
    scratch: &mut String,
    config: &Config,
    path: &[Link],
    reason: Reason,
) -> Result<(), AllocError>
    requires ready { IsReady writer.old }
    requires short { AreShort path.now }
    ensures ready { OnOk result (IsReady writer.new) }
    ensures text { OnOk result (Writes (reason_record config.now path.now reason) writer.old writer.new) }
{
    fill_reason(record, scratch, config, path, reason)?;
    put_record(writer, record)
}

/// Writes the records of the reasons.
fn put_reasons<A: Allocator>(
    writer: &mut Writer<Vec<u8, A>>,
    heap: Global,
    config: &Config,
    path: &[Link],
) -> Result<(), AllocError>
    requires ready { IsReady writer.old }
    requires short { AreShort path.now }
    ensures ready { OnOk result (IsReady writer.new) }
    ensures text { OnOk result (
        Writes (flat_map (reason_record config.now path.now) all_reasons) writer.old writer.new) }
{
    let mut record = ByteRecord::new(heap);
    let mut scratch = String::new(heap);
    for reason in REASONS {
        put_reason(writer, &mut record, &mut scratch, config, path, reason)?;
    }
    Ok(())
}

/// Adds the name of a kind's latency.
fn push_name_of_latency(
    fields: &mut ByteRecord,
    scratch: &mut String,
    unit: UnitId,
) -> Result<(), AllocError>
    requires { partial_of fields.old ≡ [] }
    ensures fields { OnOk result (fields_of fields.new
        ≡ fields_of fields.old ++ (name_of_unit unit ++ codes "_latency") ∷ []) }
    ensures whole { OnOk result (partial_of fields.new ≡ []) }
{
    scratch.clear();
    write!(scratch, "{unit}_latency")?;
    fields.push_field(scratch.as_bytes())
}

/// Makes a record the one of a kind's latency.
fn fill_latency(
    fields: &mut ByteRecord,
    scratch: &mut String,
    config: &Config,
    path: &[Link],
    unit: UnitId,
) -> Result<(), AllocError>
    requires { AreShort path.now }
    ensures { OnOk result (fields_of fields.new ≡ latency_fields config.now path.now unit) }
{
    let latency = u64::from(config.latency(unit));
    let count = operations(path, unit);
    fields.clear();
    push_name_of_latency(fields, scratch, unit)?;
    push_decimal(fields, scratch, latency)?;
    push_decimal(fields, scratch, count)?;
    push_names(fields, &["-"])?;
    push_decimal(fields, scratch, latency * count)
}

/// Writes the record of a kind's latency.
#[tactic(auto, unfolding(crate::specs::ByReason::latency_record))]
fn put_latency<A: Allocator>(
    writer: &mut Writer<Vec<u8, A>>,
    record: &mut ByteRecord,
    scratch: &mut String,
    config: &Config,
    path: &[Link],
    unit: UnitId,
) -> Result<(), AllocError>
    requires ready { IsReady writer.old }
    requires short { AreShort path.now }
    ensures ready { OnOk result (IsReady writer.new) }
    ensures text { OnOk result (Writes (latency_record config.now path.now unit) writer.old writer.new) }
{
    fill_latency(record, scratch, config, path, unit)?;
    put_record(writer, record)
}

/// Writes the records of the latencies.
fn put_latencies<A: Allocator>(
    writer: &mut Writer<Vec<u8, A>>,
    heap: Global,
    config: &Config,
    path: &[Link],
) -> Result<(), AllocError>
    requires ready { IsReady writer.old }
    requires short { AreShort path.now }
    ensures ready { OnOk result (IsReady writer.new) }
    ensures text { OnOk result (
        Writes (flat_map (latency_record config.now path.now) all_units) writer.old writer.new) }
{
    let mut record = ByteRecord::new(heap);
    let mut scratch = String::new(heap);
    for unit in UnitId::ALL {
        put_latency(writer, &mut record, &mut scratch, config, path, unit)?;
    }
    Ok(())
}

/// Writes the record of all links.
fn put_total<A: Allocator>(
    writer: &mut Writer<Vec<u8, A>>,
    heap: Global,
    path: &[Link],
) -> Result<(), AllocError>
    requires ready { IsReady writer.old }
    requires short { AreShort path.now }
    ensures ready { OnOk result (IsReady writer.new) }
    ensures text { OnOk result (Writes
        (record_text (codes "total" ∷ codes "-" ∷ fields_of_share (share_of path.now))) writer.old writer.new) }
{
    let mut record = ByteRecord::new(heap);
    push_names(&mut record, &["total", "-"])?;
    push_share(&mut record, &mut String::new(heap), &whole_share(path))?;
    put_record(writer, &record)
}

/// Writes the names of the columns.
fn put_header<A: Allocator>(writer: &mut Writer<Vec<u8, A>>, heap: Global) -> Result<(), AllocError>
    requires ready { IsReady writer.old }
    ensures ready { OnOk result (IsReady writer.new) }
    ensures text { OnOk result (Writes (record_text header) writer.old writer.new) }
{
    let mut record = ByteRecord::new(heap);
    push_names(&mut record, &["part", "count", "links", "stalls", "cycles"])?;
    put_record(writer, &record)
}

/// Writes the report of a path.
fn put_report<A: Allocator>(
    writer: &mut Writer<Vec<u8, A>>,
    heap: Global,
    config: &Config,
    path: &[Link],
) -> Result<(), AllocError>
    requires ready { IsReady writer.old }
    requires short { AreShort path.now }
    ensures { OnOk result (Writes (report_by_reason config.now path.now) writer.old writer.new) }
{
    put_header(writer, heap)?;
    put_reasons(writer, heap, config, path)?;
    put_total(writer, heap, path)?;
    put_latencies(writer, heap, config, path)
}

/// The report of a path.
fn text_of_path<A: Allocator>(
    alloc: A,
    heap: Global,
    config: &Config,
    path: &[Link],
) -> Result<Vec<u8, A>, AllocError>
    requires { AreShort path.now }
    ensures { IfOk result (λ text. text.items ≡ report_by_reason config.now path.now) }
{
    let mut writer = Writer::from_writer(Vec::new(alloc));
    put_report(&mut writer, heap, config, path)?;
    into_text(writer)
}

/// The report of a run's critical path: CSV with a header, a record for each part with how many the configuration has,
/// how many links of the path wait for one, for how many cycles their steps had waited for it, and how many cycles are
/// theirs; the same of what is no part, and of all links, whose cycles are the run's; last how many operations of each
/// kind the path has from start to finish, and their cycles.
///
/// `csv` allocates its records in `heap`.
pub fn path_report<A: Allocator + Clone>(
    alloc: A,
    heap: Global,
    run: &Run<A>,
    config: &Config,
) -> Result<Vec<u8, A>, AllocError>
    requires few { length run.now ≤ most_steps }
    ensures { IfOk result (λ text. IsPathReport config.now run.now text.items) }
{
    let path = path(alloc.clone()?, run, config)?;
    text_of_path(alloc, heap, config, path.links.as_slice())
}
