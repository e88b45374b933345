//! The links of a run's path, one a record.

ghost use Rattle.std.specs.Prelude.{◌≡◌, ◌≤◌, ◌++◌, [], ℕ, All, IfOk, List, OnOk, length, map};
ghost use Rattle.std.specs.List.{flat_map};
ghost use Rattle.csv.specs.Records.{fields_of, partial_of};
ghost use Rattle.tomex_rvexec.specs.Run.{most_steps};
ghost use Rattle.tomex_rvexec.specs.declared.step.Step.{Step};
ghost use Rattle.tomex_layout.specs.Csv.{IsReady, record_text};
ghost use Rattle.tomex_layout.specs.Growth.{Appends, Writes};
ghost use Rattle.tomex_path_views.specs.ByLink.{IsPathLinks, cycle_fields, first_columns, last_columns, link_fields};
ghost use Rattle.tomex_path_views.specs.ByLink.{link_record, report_by_link, signs, total_fields};
ghost use Rattle.tomex_path_views.specs.Charges.{AreOfSteps};
ghost use Rattle.tomex_path_views.specs.Shares.{AreShort, IsShort};

use crate::by_reason::push_reason;
use crate::shares::{cycles_of, whole_share};
use csv::{ByteRecord, Writer};
use std::alloc::{AllocError, Allocator, Global};
use tomex_config::Config;
use tomex_layout::{into_text, push_decimal, push_instruction, push_names, put_record};
use tomex_path::{Link, RunPath, path};
use tomex_run_views::{NoColumns, StepColumns, push_dashes, sign_in};
use tomex_rvexec::Step;
use tomex_timing::{Run, Times};

/// Adds what a step does in the cycles of its link, a sign a cycle.
fn push_signs(text: &mut String, at: &Times, link: &Link) -> Result<(), AllocError>
    requires { IsShort link.now }
    ensures { OnOk result (Appends (signs at.now link.now) text.old text.new) }
{
    for cycle in link.from..=link.to {
        text.push_str(sign_in(at, cycle))?;
    }
    Ok(())
}

/// Adds a link's reason, its waits, its cycles and its signs.
fn push_link(
    fields: &mut ByteRecord,
    scratch: &mut String,
    link: &Link,
    at: &Times,
) -> Result<(), AllocError>
    requires whole { partial_of fields.old ≡ [] }
    requires short { IsShort link.now }
    ensures fields { OnOk result (fields_of fields.new ≡ fields_of fields.old ++ cycle_fields link.now at.now) }
    ensures whole { OnOk result (partial_of fields.new ≡ []) }
{
    push_reason(fields, scratch, link.reason)?;
    push_decimal(fields, scratch, link.waits)?;
    push_decimal(fields, scratch, link.from)?;
    push_decimal(fields, scratch, link.to)?;
    push_decimal(fields, scratch, cycles_of(link))?;
    scratch.clear();
    push_signs(scratch, at, link)?;
    fields.push_field(scratch.as_bytes())
}

/// Makes a record the one of a link.
fn fill_link<C: StepColumns>(
    fields: &mut ByteRecord,
    scratch: &mut String,
    heap: Global,
    columns: &C,
    link: &Link,
    step: &Step,
    at: &Times,
) -> Result<(), AllocError>
    requires { IsShort link.now }
    ensures { OnOk result ((own : Step → List (List ℕ)) → C.shows columns.now step.now (own step.now)
        → fields_of fields.new ≡ link_fields own link.now step.now at.now) }
{
    fields.clear();
    push_decimal(fields, scratch, link.step)?;
    push_instruction(fields, scratch, step.pc, step.instr)?;
    columns.push_fields(fields, heap, step)?;
    push_link(fields, scratch, link, at)
}

/// Writes the record of a link.
#[tactic(auto, unfolding(crate::specs::ByLink::link_record))]
fn put_link<A: Allocator, C: StepColumns>(
    writer: &mut Writer<Vec<u8, A>>,
    record: &mut ByteRecord,
    scratch: &mut String,
    heap: Global,
    columns: &C,
    steps: &[Step],
    times: &[Times],
    link: &Link,
) -> Result<(), AllocError>
    requires ready { IsReady writer.old }
    requires pairs { length times.now ≡ length steps.now }
    requires short { IsShort link.now }
    requires step { link.now.step ≤ length steps.now }
    ensures ready { OnOk result (IsReady writer.new) }
    ensures text { OnOk result ((own : Step → List (List ℕ)) → All (λ s. C.shows columns.now s (own s)) steps.now
        → Writes (link_record own steps.now times.now link.now) writer.old writer.new) }
{
    let place = link.step as usize - 1;
    fill_link(
        record,
        scratch,
        heap,
        columns,
        link,
        &steps[place],
        &times[place],
    )?;
    put_record(writer, record)
}

/// Writes the records of the links.
fn put_links<A: Allocator, C: StepColumns>(
    writer: &mut Writer<Vec<u8, A>>,
    heap: Global,
    columns: &C,
    steps: &[Step],
    times: &[Times],
    path: &[Link],
) -> Result<(), AllocError>
    requires ready { IsReady writer.old }
    requires pairs { length times.now ≡ length steps.now }
    requires short { AreShort path.now }
    requires steps { AreOfSteps (length steps.now) path.now }
    ensures ready { OnOk result (IsReady writer.new) }
    ensures text { OnOk result ((own : Step → List (List ℕ)) → All (λ s. C.shows columns.now s (own s)) steps.now
        → Writes (flat_map (link_record own steps.now times.now) path.now) writer.old writer.new) }
{
    let mut record = ByteRecord::new(heap);
    let mut scratch = String::new(heap);
    for link in path {
        put_link(
            writer,
            &mut record,
            &mut scratch,
            heap,
            columns,
            steps,
            times,
            link,
        )?;
    }
    Ok(())
}

/// Writes the names of the columns, of which these are additional ones.
fn put_header<A: Allocator>(
    writer: &mut Writer<Vec<u8, A>>,
    heap: Global,
    names: &[&str],
) -> Result<(), AllocError>
    requires ready { IsReady writer.old }
    ensures ready { OnOk result (IsReady writer.new) }
    ensures text { OnOk result (Writes
        (record_text (first_columns ++ (map (λ n. n.now) names.now ++ last_columns))) writer.old writer.new) }
{
    let mut record = ByteRecord::new(heap);
    push_names(&mut record, &["step", "pc", "instr"])?;
    push_names(&mut record, names)?;
    push_names(
        &mut record,
        &["reason", "waits", "from", "to", "cycles", "signs"],
    )?;
    put_record(writer, &record)
}

/// Adds the fields of all links.
fn push_total(
    fields: &mut ByteRecord,
    scratch: &mut String,
    names: &[&str],
    path: &[Link],
) -> Result<(), AllocError>
    requires whole { partial_of fields.old ≡ [] }
    requires short { AreShort path.now }
    ensures fields { OnOk result (fields_of fields.new
        ≡ fields_of fields.old ++ total_fields (map (λ n. n.now) names.now) path.now) }
    ensures whole { OnOk result (partial_of fields.new ≡ []) }
{
    let share = whole_share(path);
    push_names(fields, &["total", "-", "-"])?;
    push_dashes(fields, names)?;
    push_names(fields, &["-"])?;
    push_decimal(fields, scratch, share.waits)?;
    push_names(fields, &["-", "-"])?;
    push_decimal(fields, scratch, share.cycles)?;
    push_names(fields, &["-"])
}

/// Writes the record of all links.
fn put_total<A: Allocator>(
    writer: &mut Writer<Vec<u8, A>>,
    heap: Global,
    names: &[&str],
    path: &[Link],
) -> Result<(), AllocError>
    requires ready { IsReady writer.old }
    requires short { AreShort path.now }
    ensures ready { OnOk result (IsReady writer.new) }
    ensures text { OnOk result (Writes
        (record_text (total_fields (map (λ n. n.now) names.now) path.now)) writer.old writer.new) }
{
    let mut record = ByteRecord::new(heap);
    push_total(&mut record, &mut String::new(heap), names, path)?;
    put_record(writer, &record)
}

/// Writes the report of a path.
fn put_path<A: Allocator, C: StepColumns>(
    writer: &mut Writer<Vec<u8, A>>,
    heap: Global,
    names: &[&str],
    columns: &C,
    steps: &[Step],
    times: &[Times],
    path: &[Link],
) -> Result<(), AllocError>
    requires ready { IsReady writer.old }
    requires pairs { length times.now ≡ length steps.now }
    requires short { AreShort path.now }
    requires steps { AreOfSteps (length steps.now) path.now }
    ensures { OnOk result ((own : Step → List (List ℕ)) → All (λ s. C.shows columns.now s (own s)) steps.now
        → Writes (report_by_link (map (λ n. n.now) names.now) own steps.now times.now path.now)
        writer.old writer.new) }
{
    put_header(writer, heap, names)?;
    put_links(writer, heap, columns, steps, times, path)?;
    put_total(writer, heap, names, path)
}

/// The report of a path, with more columns of these names.
pub fn text_of_links<A: Allocator, C: StepColumns>(
    alloc: A,
    heap: Global,
    names: &[&str],
    columns: &C,
    steps: &[Step],
    run: &RunPath<A>,
) -> Result<Vec<u8, A>, AllocError>
    requires pairs { length run.now.times.items ≡ length steps.now }
    requires short { AreShort run.now.links.items }
    requires steps { AreOfSteps (length steps.now) run.now.links.items }
    ensures { IfOk result (λ text. (own : Step → List (List ℕ))
        → All (λ s. C.shows columns.now s (own s)) steps.now
        → text.items ≡ report_by_link (map (λ n. n.now) names.now) own steps.now run.now.times.items
        run.now.links.items) }
{
    let mut writer = Writer::from_writer(Vec::new(alloc));
    let (times, links) = (run.times.as_slice(), run.links.as_slice());
    put_path(&mut writer, heap, names, columns, steps, times, links)?;
    into_text(writer)
}

/// The links of a run's critical path: CSV with a header, a record for each link, from the run's first cycle on, with
/// its step, why it begins no earlier, for how many cycles the step had waited for that, its first cycle and its last,
/// how many they are, and what the step does in each of them; last the sums.
///
/// `csv` allocates its records in `heap`.
pub fn path_links<A: Allocator + Clone>(
    alloc: A,
    heap: Global,
    run: &Run<A>,
    config: &Config,
) -> Result<Vec<u8, A>, AllocError>
    requires few { length run.now ≤ most_steps }
    ensures { IfOk result (λ text. IsPathLinks config.now run.now text.items) }
{
    let path = path(alloc.clone()?, run, config)?;
    text_of_links(alloc, heap, &[], &NoColumns, run.steps(), &path)
}
