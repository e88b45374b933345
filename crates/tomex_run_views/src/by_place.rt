//! The stalls report by place in the program.

ghost use Rattle.std.specs.Prelude.{◌≡◌, ◌≤◌, ◌^◌, ◌++◌, ◌∷◌, [], ℕ, All, IfOk, List, OnOk, length, map};
ghost use Rattle.std.specs.BTreeMap.{IsOrdered, values};
ghost use Rattle.std.specs.Ordering.{nat_cmp};
ghost use Rattle.tomex_rvexec.specs.Run.{most_steps};
ghost use Rattle.tomex_rvexec.specs.declared.step.Step.{Step};
ghost use Rattle.tomex_layout.specs.Csv.{IsReady};
ghost use Rattle.tomex_layout.specs.Growth.{Writes};
ghost use Rattle.tomex_run_views.specs.ByPlace.{IsReportByPlace, pc_of};
ghost use Rattle.tomex_run_views.specs.Tally.{report_of_counted};

use crate::counted::{Counted, count_run};
use crate::places::{put_header, put_last, put_places};
use crate::step_columns::{NoColumns, StepColumns};
use crate::sum_columns::WaitColumns;
use csv::Writer;
use std::alloc::{AllocError, Allocator, Global};
use tomex_config::Config;
use tomex_layout::into_text;
use tomex_rvexec::Step;
use tomex_timing::Run;

/// Writes the report of what was counted.
fn put_counted<A: Allocator, C: StepColumns>(
    writer: &mut Writer<Vec<u8, A>>,
    heap: Global,
    names: &[&str],
    columns: &C,
    counted: &Counted<A>,
) -> Result<(), AllocError>
    requires ready { IsReady writer.old }
    requires drain { counted.now.drain ≤ 2 ^ 62 }
    requires cycles { counted.now.tally.all.cycles ≤ 2 ^ 62 }
    ensures text { OnOk result ((own : Step → List (List ℕ))
        → All (λ place. C.shows columns.now place.first (own place.first)) (values counted.now.tally.groups)
        → Writes (report_of_counted (map (λ n. n.now) names.now) own counted.now) writer.old writer.new) }
    ensures order { OnOk result (IsOrdered nat_cmp counted.now.tally.groups) }
{
    put_header(writer, heap, names, &WaitColumns)?;
    put_places(writer, heap, columns, &WaitColumns, &counted.tally)?;
    let drain = counted.only_drain();
    put_last(writer, heap, "drain", names, &WaitColumns, &drain)?;
    put_last(writer, heap, "total", names, &WaitColumns, &counted.total())
}

/// The report by place of steps that were counted by address, with more columns of these names.
pub fn text_by_place<A: Allocator, C: StepColumns>(
    alloc: A,
    heap: Global,
    names: &[&str],
    columns: &C,
    counted: &Counted<A>,
) -> Result<Vec<u8, A>, AllocError>
    requires drain { counted.now.drain ≤ 2 ^ 62 }
    requires cycles { counted.now.tally.all.cycles ≤ 2 ^ 62 }
    ensures text { IfOk result (λ text. (own : Step → List (List ℕ))
        → All (λ place. C.shows columns.now place.first (own place.first)) (values counted.now.tally.groups)
        → text.items ≡ report_of_counted (map (λ n. n.now) names.now) own counted.now) }
    ensures order { OnOk result (IsOrdered nat_cmp counted.now.tally.groups) }
{
    let mut writer = Writer::from_writer(Vec::new(alloc));
    put_counted(&mut writer, heap, names, columns, counted)?;
    into_text(writer)
}

/// The addresses of steps.
pub fn addresses_of<A: Allocator>(alloc: A, steps: &[Step]) -> Result<Vec<u64, A>, AllocError>
    ensures { IfOk result (λ v. v.items ≡ map pc_of steps.now) }
{
    let mut addresses = Vec::new(alloc);
    for step in steps {
        addresses.push(u64::from(step.pc))?;
    }
    Ok(addresses)
}

/// The stalls report of a run on a configuration by place in the program: CSV with a header, a record for each
/// address at which the run has a step, in ascending order, with how many steps it has there, how many cycles they
/// take, and for how many cycles they wait for what; then the cycles after the last issue, and last the same of all
/// steps.
///
/// `csv` allocates its records in `heap`.
pub fn stalls_by_pc<A: Allocator + Clone>(
    alloc: A,
    heap: Global,
    run: &Run<A>,
    config: &Config,
) -> Result<Vec<u8, A>, AllocError>
    requires few { length run.now ≤ most_steps }
    ensures { IfOk result (λ text. IsReportByPlace config.now run.now text.items) }
{
    let steps = run.steps();
    let addresses = addresses_of(alloc.clone()?, steps)?;
    let counted = count_run(alloc.clone()?, config, steps, addresses.as_slice())?;
    text_by_place(alloc, heap, &[], &NoColumns, &counted)
}
