//! A path's links, counted by a key of their steps, such as an address.

ghost use Rattle.std.specs.Prelude.{◌≡◌, ◌≤◌, ◌++◌, [], ℕ, IfOk, List, OnOk, length, map};
ghost use Rattle.csv.specs.Records.{fields_of, partial_of};
ghost use Rattle.tomex_rvexec.specs.Run.{most_steps};
ghost use Rattle.tomex_rvexec.specs.declared.step.Step.{Step};
ghost use Rattle.tomex_path.specs.Laws.{cycles_of};
ghost use Rattle.tomex_path_views.specs.Charges.{AreOfSteps, charge_columns, charge_fields, charged, order_of};
ghost use Rattle.tomex_path_views.specs.Charges.{path_visits, visits_along};
ghost use Rattle.tomex_path_views.specs.Shares.{AreShort, IsShort};
ghost use Rattle.tomex_run_views.specs.ByPlace.{pc_of};
ghost use Rattle.tomex_run_views.specs.Tally.{IsTally};

use crate::shares::cycles_of;
use csv::ByteRecord;
use std::alloc::{AllocError, Allocator};
use tomex_config::{Config, Part};
use tomex_functions::{Row, RowColumns};
use tomex_layout::push_names;
use tomex_path::{Link, Reason, path};
use tomex_run_views::{Sum, SumColumns, Tally, addresses_of, push_decimals};
use tomex_rvexec::Step;
use tomex_timing::{Run, Waits};

/// The names of the columns of sums.
const CHARGE_COLUMNS: [&str; 11] = [
    "links", "cycles", "order", "branch", "width", "station", "operand", "address", "memory",
    "unit", "bus",
];

/// These cycles, charged to a reason; those that begin in turn are charged to nothing.
fn charged(cycles: u64, reason: Reason) -> Waits
    ensures { result ≡ charged cycles reason }
{
    let mut waits = Sum::none().waits;
    match reason {
        Reason::For(Part::Stations(_)) => waits.station = cycles,
        Reason::For(Part::Units(_)) => waits.unit = cycles,
        Reason::For(Part::Buses) => waits.bus = cycles,
        Reason::For(Part::Width) => waits.width = cycles,
        Reason::Branch => waits.branch = cycles,
        Reason::Operand => waits.operand = cycles,
        Reason::Address => waits.address = cycles,
        Reason::Memory => waits.memory = cycles,
        Reason::Order => {}
    }
    waits
}

/// Counts the links of a path by a key of their steps. There is a key for each step of the run.
fn count_links<A: Allocator + Clone>(
    alloc: A,
    keys: &[u64],
    steps: &[Step],
    path: &[Link],
) -> Result<Tally<A>, AllocError>
    requires keys { (key : Step → ℕ) × (keys.now ≡ map key steps.now) }
    requires short { AreShort path.now }
    requires steps { AreOfSteps (length steps.now) path.now }
    ensures { IfOk result (λ tally. (key : Step → ℕ) → keys.now ≡ map key steps.now
        → IsTally key (visits_along steps.now path.now) tally) }
{
    let mut tally = Tally::new(alloc);
    for link in path {
        let place = link.step as usize - 1;
        let cycles = cycles_of(link);
        tally.add(
            keys[place],
            &steps[place],
            cycles,
            &charged(cycles, link.reason),
        )?;
    }
    Ok(tally)
}

/// The links of a run's path on a configuration, counted by a key of their steps. There is a key for each step.
pub fn count_path<A: Allocator + Clone>(
    alloc: &A,
    run: &Run<A>,
    config: &Config,
    keys: &[u64],
) -> Result<Tally<A>, AllocError>
    requires few { length run.now ≤ most_steps }
    requires keys { (key : Step → ℕ) × (keys.now ≡ map key run.now) }
    ensures { IfOk result (λ tally. (key : Step → ℕ) → keys.now ≡ map key run.now
        → IsTally key (path_visits config.now run.now) tally) }
{
    let path = path(alloc.clone()?, run, config)?;
    count_links(alloc.clone()?, keys, run.steps(), path.links.as_slice())
}

/// The links of a run's path on a configuration, counted by the addresses of their steps.
pub fn count_by_address<A: Allocator + Clone>(
    alloc: &A,
    run: &Run<A>,
    config: &Config,
) -> Result<Tally<A>, AllocError>
    requires few { length run.now ≤ most_steps }
    ensures { IfOk result (λ tally. IsTally pc_of (path_visits config.now run.now) tally) }
{
    let addresses = addresses_of(alloc.clone()?, run.steps())?;
    count_path(alloc, run, config, addresses.as_slice())
}

/// The cycles that are charged to nothing.
fn order_of(sum: &Sum) -> u64
    ensures { result ≡ order_of sum.now }
{
    let waits = &sum.waits;
    sum.cycles
        .saturating_sub(waits.branch)
        .saturating_sub(waits.width)
        .saturating_sub(waits.station)
        .saturating_sub(waits.operand)
        .saturating_sub(waits.address)
        .saturating_sub(waits.memory)
        .saturating_sub(waits.unit)
        .saturating_sub(waits.bus)
}

/// Adds how many links there are, how many cycles are theirs, and to what these are charged.
fn push_charges(fields: &mut ByteRecord, scratch: &mut String, sum: &Sum) -> Result<(), AllocError>
    requires { partial_of fields.old ≡ [] }
    ensures fields { OnOk result (fields_of fields.new ≡ fields_of fields.old ++ charge_fields sum.now) }
    ensures whole { OnOk result (partial_of fields.new ≡ []) }
{
    let waits = &sum.waits;
    let numbers = [
        sum.steps,
        sum.cycles,
        order_of(sum),
        waits.branch,
        waits.width,
        waits.station,
        waits.operand,
        waits.address,
        waits.memory,
        waits.unit,
        waits.bus,
    ];
    push_decimals(fields, scratch, &numbers)
}

/// How many links there are, how many cycles are theirs, and to what these are charged.
#[derive(Clone, Copy, Drop)]
pub struct ChargeColumns;

impl SumColumns for ChargeColumns {
    ghost names = { charge_columns };

    ghost shown = { charge_fields };

    fn push_names(&self, fields: &mut ByteRecord) -> Result<(), AllocError> {
        push_names(fields, &CHARGE_COLUMNS)
    }

    fn push_sum(
        &self,
        fields: &mut ByteRecord,
        scratch: &mut String,
        sum: &Sum,
    ) -> Result<(), AllocError> {
        push_charges(fields, scratch, sum)
    }
}

impl RowColumns for ChargeColumns {
    ghost shown = { λ row. charge_fields row.sum };

    fn push_row(
        &self,
        fields: &mut ByteRecord,
        scratch: &mut String,
        row: &Row,
    ) -> Result<(), AllocError> {
        push_charges(fields, scratch, &row.sum)
    }
}
