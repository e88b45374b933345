//! The lines of a log.

ghost use Rattle.std.specs.Prelude.{◌≡◌, ◌+◌, ◌<◌, ◌^◌, OnOk};
ghost use Rattle.tomex_layout.specs.Growth.{Appends};
ghost use Rattle.tomex_konata.specs.Konata.{begin_line, end_line, is_shared, issue_lines, name_of_stage, out_lines};
ghost use Rattle.tomex_konata.specs.Konata.{place_of_stage, station_line, step_lines, turn_lines, wake_line};
ghost use Rattle.tomex_konata.specs.Konata.{wake_lines};

use crate::entries::{Entry, Producer};
use std::alloc::AllocError;
use std::fmt::Write;
use tomex_run_views::{Stage, stage_in};
use tomex_rvdec::PoolId;
use tomex_timing::Times;

/// A stage's name in the log.
fn name_of_stage(stage: Stage) -> &'static str
    ensures { result.now ≡ name_of_stage stage }
{
    match stage {
        Stage::Issue => "Is",
        Stage::Address => "Ad",
        Stage::Execute => "X",
        Stage::Write => "Wr",
        Stage::BusWait => "Bs",
        Stage::Wait => "Wt",
    }
}

/// A stage's place in the list of stages.
fn place_of_stage(stage: Stage) -> u8
    ensures { result ≡ place_of_stage stage }
{
    match stage {
        Stage::Issue => 0,
        Stage::Address => 1,
        Stage::Execute => 2,
        Stage::Write => 3,
        Stage::BusWait => 4,
        Stage::Wait => 5,
    }
}

/// Adds the line of a step's station, if it has one.
fn push_station(
    text: &mut String,
    id: usize,
    pool: Option<PoolId>,
    station: Option<u8>,
) -> Result<(), AllocError>
    ensures { OnOk result (Appends (station_line id pool station) text.old text.new) }
{
    if let (Some(pool), Some(station)) = (pool, station) {
        write!(text, "L\t{id}\t1\t{pool}{station}\n")?;
    }
    Ok(())
}

/// Adds the lines of a step that issues.
fn push_issue(text: &mut String, number: u64, entry: &Entry) -> Result<(), AllocError>
    ensures { OnOk result (Appends (issue_lines number entry.now) text.old text.new) }
{
    let (id, pc, instr) = (entry.id, entry.step.pc, entry.step.instr);
    write!(
        text,
        "I\t{id}\t{number}\t0\nL\t{id}\t0\t{pc:08x}: {instr}\n"
    )?;
    push_station(text, id, entry.step.pool(), entry.at.station)
}

/// Adds the line of a stage that begins.
fn push_begin(text: &mut String, id: usize, stage: Stage) -> Result<(), AllocError>
    ensures { OnOk result (Appends (begin_line id stage) text.old text.new) }
{
    let name = name_of_stage(stage);
    write!(text, "S\t{id}\t0\t{name}\n")?;
    Ok(())
}

/// Adds the line of a stage that ends.
fn push_end(text: &mut String, id: usize, stage: Stage) -> Result<(), AllocError>
    ensures { OnOk result (Appends (end_line id stage) text.old text.new) }
{
    let name = name_of_stage(stage);
    write!(text, "E\t{id}\t0\t{name}\n")?;
    Ok(())
}

/// Adds the lines of a step that goes from one stage to the next.
fn push_turn(
    text: &mut String,
    id: usize,
    old: Option<Stage>,
    new: Option<Stage>,
) -> Result<(), AllocError>
    ensures { OnOk result (Appends (turn_lines id old new) text.old text.new) }
{
    match (old, new) {
        (None, Some(new)) => push_begin(text, id, new),
        (Some(old), Some(new)) => {
            if place_of_stage(old) == place_of_stage(new) {
                return Ok(());
            }
            push_end(text, id, old)?;
            push_begin(text, id, new)
        }
        (_, None) => Ok(()),
    }
}

/// Adds the line of a value that a step gets, if it gets it in this cycle.
fn push_wake(
    text: &mut String,
    entry: &Entry,
    cycle: u64,
    producer: Option<Producer>,
) -> Result<(), AllocError>
    ensures { OnOk result (Appends (wake_line entry.now.id entry.now.at cycle producer) text.old text.new) }
{
    if let Some(producer) = producer {
        if producer.end == cycle && entry.at.issue <= cycle {
            let (id, from) = (entry.id, producer.id);
            write!(text, "W\t{id}\t{from}\t0\n")?;
        }
    }
    Ok(())
}

/// True if two operands have the same producer.
fn is_shared(j: Option<Producer>, k: Option<Producer>) -> bool
    ensures { result ≡ is_shared j k }
{
    match (j, k) {
        (Some(j), Some(k)) => j.id == k.id,
        _ => false,
    }
}

/// Adds the lines of the values that a step gets in a cycle.
fn push_wakes(text: &mut String, entry: &Entry, cycle: u64) -> Result<(), AllocError>
    ensures { OnOk result (Appends (wake_lines cycle entry.now) text.old text.new) }
{
    push_wake(text, entry, cycle, entry.j)?;
    if is_shared(entry.j, entry.k) {
        return Ok(());
    }
    push_wake(text, entry, cycle, entry.k)
}

/// Adds the lines of a step in a cycle.
#[tactic(auto, unfolding(crate::specs::Konata::step_lines))]
pub fn push_step(
    text: &mut String,
    number: u64,
    cycle: u64,
    entry: &Entry,
) -> Result<(), AllocError>
    requires few { number + entry.now.id < 2 ^ 64 }
    ensures { OnOk result (Appends (step_lines number cycle entry.now) text.old text.new) }
{
    if cycle == entry.at.issue {
        push_issue(text, number + entry.id as u64, entry)?;
    }
    let old = stage_in(&entry.at, cycle.saturating_sub(1));
    push_turn(text, entry.id, old, stage_in(&entry.at, cycle))?;
    push_wakes(text, entry, cycle)
}

/// Adds the lines of a step that goes out after `gone` others.
#[tactic(auto, unfolding(crate::specs::Konata::out_lines))]
pub fn push_out(text: &mut String, gone: u64, entry: &Entry) -> Result<(), AllocError>
    ensures { OnOk result (Appends (out_lines gone entry.now) text.old text.new) }
{
    if let Some(stage) = stage_in(&entry.at, entry.at.end) {
        let id = entry.id;
        push_end(text, id, stage)?;
        write!(text, "R\t{id}\t{gone}\t0\n")?;
    }
    Ok(())
}
