//! The log of some steps of a run on one configuration.

ghost use Rattle.std.specs.Prelude.{◌≡◌, ◌+◌, ◌-◌, ◌<◌, ◌≤◌, ◌^◌, ◌++◌, All, length, IfErr, IfOk, IsErrOf, OnOk};
ghost use Rattle.tomex_rvexec.specs.Run.{most_steps};
ghost use Rattle.tomex_timing.specs.Search.{total_of};
ghost use Rattle.tomex_layout.specs.Growth.{Appends};
ghost use Rattle.tomex_run_views.specs.Excerpt.{HasNoExcerpt};
ghost use Rattle.tomex_konata.specs.Konata.{IsLogOf, head_of, log_of, next_since, with_cycle};
ghost use Rattle.tomex_konata.specs.Kept.{event_lines, steps_out_after, events_text};

use crate::entries::{Entry, entries_of};
use crate::events::{Event, Kind, ordered_events};
use crate::lines::{push_out, push_step};
use std::alloc::{AllocError, Allocator, Global};
use std::fmt::Write;
use tomex_config::Config;
use tomex_run_views::{Excerpt, ExcerptError, first_issue};
use tomex_rvexec::Step;
use tomex_timing::evaluate::total;
use tomex_timing::{Run, Times};

/// Adds the lines of an event, if it has any.
fn push_event(
    text: &mut String,
    number: u64,
    gone: u64,
    event: &Event,
    entry: &Entry,
) -> Result<(), AllocError>
    requires few { number + entry.now.id < 2 ^ 64 }
    ensures { OnOk result (
        Appends (event_lines number gone event.now.cycle event.now.kind entry.now) text.old text.new) }
{
    match event.kind {
        Kind::Change => push_step(text, number, event.cycle, entry),
        Kind::Out => push_out(text, gone, entry),
    }
}

/// Adds lines of a cycle, if there are any, after the cycles that passed since the last one with
/// lines. Returns the last cycle with lines, which may now be this one.
fn push_in_cycle<A: Allocator>(
    text: &mut String<A>,
    since: u64,
    cycle: u64,
    lines: &str,
) -> Result<u64, AllocError>
    ensures text { OnOk result (Appends (with_cycle (cycle - since) lines.now) text.old text.new) }
    ensures since { IfOk result (λ last. last ≡ next_since since cycle lines.now) }
{
    if lines.is_empty() {
        return Ok(since);
    }
    let passed = cycle.saturating_sub(since);
    if passed > 0 {
        write!(text, "C\t{passed}\n")?;
    }
    text.push_str(lines)?;
    Ok(cycle)
}

/// The number of steps that have gone out after an event.
fn steps_out_after(gone: u64, kind: Kind) -> u64
    requires { gone < 2 ^ 63 }
    ensures { result ≡ steps_out_after gone kind }
{
    match kind {
        Kind::Change => gone,
        Kind::Out => gone + 1,
    }
}

/// Adds the lines of events, in their order.
fn push_events<A: Allocator>(
    text: &mut String<A>,
    heap: Global,
    number: u64,
    first: u64,
    entries: &[Entry],
    events: &[Event],
) -> Result<(), AllocError>
    requires there { All (λ event. event.id < length entries.now) events.now }
    requires few { All (λ entry. number + entry.id < 2 ^ 64) entries.now }
    requires many { length events.now < 2 ^ 63 }
    ensures { OnOk result (Appends (events_text number entries.now first 0 events.now) text.old text.new) }
{
    let mut lines = String::new(heap);
    let mut since = first;
    let mut gone = 0;
    for event in events {
        lines.clear();
        push_event(&mut lines, number, gone, event, &entries[event.id])?;
        since = push_in_cycle(text, since, event.cycle, lines.as_str())?;
        gone = steps_out_after(gone, event.kind);
    }
    Ok(())
}

/// The log's head, and the lines of events.
fn text_of<A: Allocator>(
    alloc: A,
    heap: Global,
    number: u64,
    first: u64,
    entries: &[Entry],
    events: &[Event],
) -> Result<Vec<u8, A>, AllocError>
    requires there { All (λ event. event.id < length entries.now) events.now }
    requires few { All (λ entry. number + entry.id < 2 ^ 64) entries.now }
    requires many { length events.now < 2 ^ 63 }
    ensures { IfOk result (λ text. text.items
        ≡ head_of first ++ events_text number entries.now first 0 events.now) }
{
    let mut text = String::new(alloc);
    write!(&mut text, "Kanata\t0004\nC=\t{first}\n")?;
    push_events(&mut text, heap, number, first, entries, events)?;
    Ok(text.into_bytes())
}

/// The log of steps with these times, the first of which has number `number`.
fn log_of<A: Allocator + Clone>(
    alloc: A,
    heap: Global,
    number: u64,
    steps: &[Step],
    times: &[Times],
) -> Result<Vec<u8, A>, AllocError>
    requires pairs { length times.now ≡ length steps.now }
    requires few { number + length steps.now < 2 ^ 63 }
    requires bound { total_of times.now < 2 ^ 32 }
    ensures { IfOk result (λ text. text.items ≡ log_of number steps.now times.now) }
{
    let first = first_issue(times);
    let entries = entries_of(alloc.clone()?, steps, times)?;
    let events = ordered_events(alloc.clone()?, entries.as_slice(), total(times) + 1)?;
    text_of(
        alloc,
        heap,
        number,
        first,
        entries.as_slice(),
        events.as_slice(),
    )
}

/// The log of some steps of a run on a configuration for the viewer Konata, at most
/// `count` of them from step `number` on; the first step is number 1. Only these steps count as
/// producers.
///
/// The work grows as n log n with the steps, for any number of cycles. Small values are allocated
/// in `heap`.
pub fn konata_text<A: Allocator + Clone>(
    alloc: A,
    heap: Global,
    run: &Run<A>,
    config: &Config,
    number: u32,
    count: u32,
) -> Result<Vec<u8, A>, ExcerptError>
    requires few { length run.now ≤ most_steps }
    requires number { 0 < number }
    ensures text { IfOk result (λ text. IsLogOf config.now run.now number count text.items) }
    ensures refused { IfErr result (λ error. HasNoExcerpt run.now number error) }
    ensures no_step { length run.now < number → IsErrOf result ExcerptError.NoSuchStep }
{
    let excerpt = Excerpt::new(&alloc, run, config, number, count)?;
    excerpt.keeps_limits();
    Ok(log_of(
        alloc,
        heap,
        excerpt.number(),
        excerpt.steps(),
        excerpt.times(),
    )?)
}
