//! The times report of a run on one configuration.

ghost use Rattle.std.specs.Prelude.{◌≡◌, ◌<◌, ◌^◌, ◌++◌, ◌∷◌, [], IfOk, OnOk, length};
ghost use Rattle.std.specs.Option.{ForSome};
ghost use Rattle.std.specs.List.{flat_map};
ghost use Rattle.csv.specs.Records.{fields_of};
ghost use Rattle.tomex_layout.specs.Csv.{record_text};
ghost use Rattle.tomex_texts.specs.Places.{AreKept, AreSmall, after, time_fields};
ghost use Rattle.tomex_texts.specs.TimesReport.{cycle_text, fields_of_step, header, report_of_times, station_text};
ghost use Rattle.tomex_texts.specs.TimesReport.{step_records, times_report_of, total_fields};
ghost use Rattle.tomex_rvexec.specs.Run.{start_of};
ghost use Rattle.tomex_rvexec.specs.Steps.{step_pool};
ghost use Rattle.tomex_rvexec.specs.Trace.{steps_from};

use crate::places::{Place, no_places, push_place};
use csv::ByteRecord;
use std::alloc::{AllocError, Allocator, Global};
use tomex_config::Config;
use tomex_layout::{push_decimal, push_digits, push_names, push_next_number, text_of_record};
use tomex_rvexec::Step;
use tomex_study::Program;
use tomex_timing::Times;
use tomex_timing::evaluate::{times, total};

const COLUMNS: [&str; 9] = [
    "step", "pc", "instr", "issue", "addr", "start", "finish", "end", "station",
];

/// The record of the columns' names.
fn header_of(heap: Global) -> Result<ByteRecord, AllocError>
    ensures { IfOk result (λ made. fields_of made ≡ header) }
{
    let mut record = ByteRecord::new(heap);
    push_names(&mut record, &COLUMNS)?;
    Ok(record)
}

/// The fields before the total's cycles.
const TOTAL: [&str; 7] = ["total", "-", "-", "-", "-", "-", "-"];

fn total_record(heap: Global, total: u64) -> Result<ByteRecord, AllocError>
    ensures { IfOk result (λ made. fields_of made ≡ total_fields total) }
{
    let mut record = ByteRecord::new(heap);
    push_names(&mut record, &TOTAL)?;
    push_decimal(&mut record, &mut String::new(heap), total)?;
    record.push_field(b"-")?;
    Ok(record)
}

/// Adds a cycle after a comma, or `-` if there is none.
fn push_cycle<A: Allocator>(text: &mut Vec<u8, A>, cycle: Option<u64>) -> Result<(), AllocError>
    ensures { OnOk result (text.new.items ≡ text.old.items ++ 44 ∷ cycle_text cycle) }
{
    match cycle {
        Some(cycle) => push_next_number(text, cycle),
        None => text.extend_from_slice(b",-"),
    }
}

/// Adds a step's station after a comma, or `-` if it has none.
fn push_station<A: Allocator>(
    text: &mut Vec<u8, A>,
    step: &Step,
    station: Option<u8>,
) -> Result<(), AllocError>
    ensures { OnOk result
        (text.new.items ≡ text.old.items ++ 44 ∷ station_text (step_pool step.now) station) }
{
    match (step.pool(), station) {
        (Some(pool), Some(number)) => {
            text.push(b',')?;
            text.extend_from_slice(pool.name().as_bytes())?;
            push_digits(text, u64::from(number))
        }
        _ => text.extend_from_slice(b",-"),
    }
}

/// A law: a number is of 64 bits.
fn is_small(number: u64)
    ensures { number < 2 ^ 64 }
{}

/// A law: so is a cycle, if there is one.
fn cycle_is_small(cycle: Option<u64>)
    ensures { ForSome cycle (λ n. n < 2 ^ 64) }
{
    if let Some(cycle) = cycle {
        is_small(cycle);
    }
}

/// A law: so is the number of a station, if there is one.
fn station_is_small(station: Option<u8>)
    ensures { ForSome station (λ n. n < 2 ^ 64) }
{
    if let Some(station) = station {
        is_small(u64::from(station));
    }
}

/// A law: so are all numbers of a step's times.
fn times_are_small(at: &Times)
    ensures { AreSmall at.now }
{
    is_small(at.issue);
    cycle_is_small(at.address);
    is_small(at.start);
    is_small(at.finish);
    is_small(at.end);
    station_is_small(at.station);
}

/// Adds the times of a step, each after a comma, and the end of its record.
fn push_times<A: Allocator>(
    text: &mut Vec<u8, A>,
    step: &Step,
    at: &Times,
) -> Result<(), AllocError>
    ensures { OnOk result
        (text.new.items ≡ text.old.items ++ (flat_map after (time_fields step.now at.now) ++ 10 ∷ [])) }
{
    push_next_number(text, at.issue)?;
    push_cycle(text, at.address)?;
    push_next_number(text, at.start)?;
    push_next_number(text, at.finish)?;
    push_next_number(text, at.end)?;
    push_station(text, step, at.station)?;
    text.push(b'\n')?;
    Ok(())
}

/// Adds the record of a step.
fn push_step<A: Allocator>(
    text: &mut Vec<u8, A>,
    heap: Global,
    places: &mut Vec<Option<Place>>,
    number: u64,
    step: &Step,
    at: &Times,
) -> Result<(), AllocError>
    requires kept { AreKept places.old.items }
    ensures kept { AreKept places.new.items }
    ensures text { OnOk result
        (text.new.items ≡ text.old.items ++ record_text (fields_of_step number step.now at.now)) }
{
    times_are_small(at);
    push_digits(text, number)?;
    push_place(text, heap, places, step.pc, step.instr)?;
    push_times(text, step, at)
}

/// Adds the records of the steps, numbered from 1.
fn push_steps<A: Allocator>(
    text: &mut Vec<u8, A>,
    heap: Global,
    steps: &[Step],
    times: &[Times],
) -> Result<(), AllocError>
    requires pairs { length times.now ≡ length steps.now }
    ensures { OnOk result (text.new.items ≡ text.old.items ++ step_records 1 steps.now times.now) }
{
    let mut places = no_places(heap)?;
    for (index, step) in steps.iter().enumerate() {
        let number = index as u64 + 1;
        push_step(text, heap, &mut places, number, step, &times[index])?;
    }
    Ok(())
}

/// The report of steps that have these times.
fn text_of_times<A: Allocator>(
    alloc: A,
    heap: Global,
    steps: &[Step],
    times: &[Times],
) -> Result<Vec<u8, A>, AllocError>
    requires pairs { length times.now ≡ length steps.now }
    ensures { IfOk result (λ text. text.items ≡ report_of_times steps.now times.now) }
{
    let mut text = text_of_record(alloc, &header_of(heap)?)?;
    push_steps(&mut text, heap, steps, times)?;
    let last = text_of_record(heap, &total_record(heap, total(times))?)?;
    text.extend_from_slice(last.as_slice())?;
    Ok(text)
}

/// The times report of a program on a configuration: CSV with a header, a record for each step in
/// program order, and last the total. Cycles are counted from 1, steps too. A missing address cycle
/// or station is `-`.
///
/// `csv` allocates its records in `heap`.
pub fn times_report<A: Allocator + Clone>(
    alloc: A,
    heap: Global,
    program: &Program<A>,
    config: &Config,
) -> Result<Vec<u8, A>, AllocError>
    ensures { IfOk result
        (λ text. text.items ≡ times_report_of config.now (steps_from program.now.limit (start_of program.now.image))) }
{
    let steps = program.steps();
    let times = times(alloc.clone()?, steps, config)?;
    text_of_times(alloc, heap, steps, times.as_slice())
}
