//! The events of a log's steps, cycle by cycle.

ghost use Rattle.std.specs.Prelude.{◌≡◌, ◌<◌, ◌^◌, ◌++◌, map, IfOk, OnOk, All};
ghost use Rattle.std.specs.List.{flat_map};
ghost use Rattle.tomex_konata.specs.Kept.{ArePut, change_cycles, changes_of, events_of, next_cycle, out_of};
ghost use Rattle.tomex_konata.specs.Kept.{ready_cycle};

use crate::entries::{Entry, Producer};
use std::alloc::{AllocError, Allocator};
use tomex_timing::Times;

/// The kind of an event.
#[derive(Clone, Copy, PartialEq, Eq)]
pub enum Kind {
    /// It issues, begins a stage or gets an operand.
    Change,
    /// It goes out, in the cycle after its end.
    Out,
}

/// A cycle in which something may happen to a step.
#[derive(Clone, Copy)]
pub struct Event {
    pub cycle: u64,
    pub kind: Kind,
    /// The step's place in the log.
    pub id: usize,
}

/// The next cycle, or the last one.
fn next_cycle(cycle: u64, last: u64) -> u64
    ensures { result ≡ next_cycle cycle last }
{
    if cycle < last { cycle + 1 } else { last }
}

/// The cycle in which a step gets an operand, or the cycle of its issue if it has the operand by
/// then.
fn ready_cycle(at: &Times, producer: Option<Producer>) -> u64
    ensures { result ≡ ready_cycle at.now producer }
{
    match producer {
        Some(producer) => producer.end.max(at.issue),
        None => at.issue,
    }
}

/// The cycles in which a step may change, in no order, and some of them more than once. Cycles
/// after the last one of the log are replaced by the last, in which nothing changes.
fn change_cycles(entry: &Entry, last: u64) -> [u64; 9]
    ensures { result ≡ change_cycles last entry.now }
{
    let at = &entry.at;
    let address = at.address.unwrap_or(at.issue);
    [
        at.issue.min(last),
        next_cycle(at.issue, last),
        address.min(last),
        next_cycle(address, last),
        at.start.min(last),
        next_cycle(at.finish, last),
        at.end.min(last),
        ready_cycle(at, entry.j).min(last),
        ready_cycle(at, entry.k).min(last),
    ]
}

/// Adds the cycles in which a step may change, each once.
fn push_changes<A: Allocator>(
    events: &mut Vec<Event, A>,
    entry: &Entry,
    last: u64,
) -> Result<(), AllocError>
    ensures { OnOk result (events.new.items ≡ events.old.items ++ changes_of last entry.now) }
{
    let cycles = change_cycles(entry, last);
    for (place, cycle) in cycles.iter().enumerate() {
        if !cycles[place + 1..].contains(cycle) {
            events.push(Event {
                cycle: *cycle,
                kind: Kind::Change,
                id: entry.id,
            })?;
        }
    }
    Ok(())
}

/// Adds the cycles in which steps may change, step by step.
fn push_all_changes<A: Allocator>(
    events: &mut Vec<Event, A>,
    entries: &[Entry],
    last: u64,
) -> Result<(), AllocError>
    ensures { OnOk result (events.new.items
        ≡ events.old.items ++ flat_map (changes_of last) entries.now) }
{
    for entry in entries {
        push_changes(events, entry, last)?;
    }
    Ok(())
}

/// Adds the cycles in which steps go out, step by step.
fn push_outs<A: Allocator>(events: &mut Vec<Event, A>, entries: &[Entry]) -> Result<(), AllocError>
    requires bound { All (λ entry. entry.at.end < 2 ^ 63) entries.now }
    ensures { OnOk result (events.new.items ≡ events.old.items ++ map out_of entries.now) }
{
    for entry in entries {
        events.push(Event {
            cycle: entry.at.end + 1,
            kind: Kind::Out,
            id: entry.id,
        })?;
    }
    Ok(())
}

/// Puts events in the order of their cycles. Those of one cycle keep their order.
fn put_in_order<A: Allocator>(events: &mut Vec<Event, A>) -> Result<(), AllocError>
    ensures { OnOk result (ArePut events.old.items events.new.items) }
{
    events.sort_by_key(|event| event.cycle)
}

/// The events of a log's steps up to a cycle, cycle by cycle: in a cycle the changes of all steps,
/// then the steps that go out.
pub fn ordered_events<A: Allocator>(
    alloc: A,
    entries: &[Entry],
    last: u64,
) -> Result<Vec<Event, A>, AllocError>
    requires bound { All (λ entry. entry.at.end < 2 ^ 63) entries.now }
    ensures { IfOk result (λ events. ArePut (events_of last entries.now) events.items) }
{
    let mut events = Vec::new(alloc);
    push_all_changes(&mut events, entries, last)?;
    push_outs(&mut events, entries)?;
    put_in_order(&mut events)?;
    Ok(events)
}
