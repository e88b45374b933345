//! A run's path by place in the program.

ghost use Rattle.std.specs.Prelude.{◌≡◌, ◌≤◌, ◌++◌, ◌∷◌, [], ℕ, All, IfOk, List, OnOk, length, map};
ghost use Rattle.std.specs.BTreeMap.{IsOrdered, values};
ghost use Rattle.std.specs.Ordering.{nat_cmp};
ghost use Rattle.tomex_rvexec.specs.Run.{most_steps};
ghost use Rattle.tomex_rvexec.specs.declared.step.Step.{Step};
ghost use Rattle.tomex_layout.specs.Csv.{IsReady};
ghost use Rattle.tomex_layout.specs.Growth.{Writes};
ghost use Rattle.tomex_path_views.specs.ByPlace.{IsPathByPlace, report_of_tally};

use crate::charges::{ChargeColumns, count_by_address};
use csv::Writer;
use std::alloc::{AllocError, Allocator, Global};
use tomex_config::Config;
use tomex_layout::into_text;
use tomex_run_views::{NoColumns, StepColumns, Tally, put_header, put_last, put_places};
use tomex_timing::Run;

/// Writes the report of what was counted.
fn put_tally<A: Allocator, C: StepColumns>(
    writer: &mut Writer<Vec<u8, A>>,
    heap: Global,
    names: &[&str],
    columns: &C,
    tally: &Tally<A>,
) -> Result<(), AllocError>
    requires ready { IsReady writer.old }
    ensures text { OnOk result ((own : Step → List (List ℕ))
        → All (λ place. C.shows columns.now place.first (own place.first)) (values tally.now.groups)
        → Writes (report_of_tally (map (λ n. n.now) names.now) own tally.now) writer.old writer.new) }
    ensures order { OnOk result (IsOrdered nat_cmp tally.now.groups) }
{
    put_header(writer, heap, names, &ChargeColumns)?;
    put_places(writer, heap, columns, &ChargeColumns, tally)?;
    put_last(writer, heap, "total", names, &ChargeColumns, &tally.all)
}

/// The report by place of links that were counted by address, with more columns of these names.
pub fn text_of_places<A: Allocator, C: StepColumns>(
    alloc: A,
    heap: Global,
    names: &[&str],
    columns: &C,
    tally: &Tally<A>,
) -> Result<Vec<u8, A>, AllocError>
    ensures text { IfOk result (λ text. (own : Step → List (List ℕ))
        → All (λ place. C.shows columns.now place.first (own place.first)) (values tally.now.groups)
        → text.items ≡ report_of_tally (map (λ n. n.now) names.now) own tally.now) }
    ensures order { OnOk result (IsOrdered nat_cmp tally.now.groups) }
{
    let mut writer = Writer::from_writer(Vec::new(alloc));
    put_tally(&mut writer, heap, names, columns, tally)?;
    into_text(writer)
}

/// A run's critical path by place in the program: CSV with a header, a record for each address that has a link, in
/// ascending order, with how many links it has, how many cycles are theirs, and how many of these are charged to what
/// their steps had waited for; last the sums.
///
/// `csv` allocates its records in `heap`.
pub fn path_by_pc<A: Allocator + Clone>(
    alloc: A,
    heap: Global,
    run: &Run<A>,
    config: &Config,
) -> Result<Vec<u8, A>, AllocError>
    requires few { length run.now ≤ most_steps }
    ensures { IfOk result (λ text. IsPathByPlace config.now run.now text.items) }
{
    let tally = count_by_address(&alloc, run, config)?;
    text_of_places(alloc, heap, &[], &NoColumns, &tally)
}
