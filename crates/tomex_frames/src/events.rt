//! The events of a cycle.

ghost use Rattle.std.specs.Prelude.{◌≡◌, OnOk};
ghost use Rattle.std.specs.List.{flat_map, list_any};
ghost use Rattle.tomex_layout.specs.Growth.{Appends};
ghost use Rattle.tomex_frames.specs.Events.{name_of_event, sent_text};
ghost use Rattle.tomex_frames.specs.Events.{all_events, event_text, events, happens, item, item_if, items};

use crate::values::{Values, push_value};
use std::alloc::{AllocError, Allocator, Global};
use std::fmt::Write;
use tomex_snapshots::{Entry, Name, View, push_takers};

/// An event of a step in a cycle.
#[derive(Clone, Copy)]
pub enum Event {
    Issue,
    /// A load or store computes its address.
    Address,
    Start,
    Finish,
    /// A result is sent on a common data bus.
    Write,
}

const EVENTS: [Event; 5] = [
    Event::Issue,
    Event::Address,
    Event::Start,
    Event::Finish,
    Event::Write,
];

/// All events, in the order in which a view has them.
#[tactic(auto, unfolding(crate::specs::Events::all_events))]
pub fn all_events() -> &'static [Event]
    ensures { result.now ≡ all_events }
{
    &EVENTS
}

impl Event {
    /// Its name in a view.
    pub fn name(self) -> &'static str
        ensures { result.now ≡ name_of_event self }
    {
        match self {
            Event::Issue => "Issue",
            Event::Address => "Address",
            Event::Start => "Start",
            Event::Finish => "Finish",
            Event::Write => "Write result",
        }
    }

    /// True if it happens to a step in a cycle.
    fn happens(self, cycle: u64, entry: &Entry) -> bool
        ensures { result ≡ happens self cycle entry.now }
    {
        let at = &entry.at;
        match self {
            Event::Issue => at.issue == cycle,
            Event::Address => match at.address {
                Some(address) => address == cycle,
                None => false,
            },
            Event::Start => entry.has_unit() && at.start == cycle,
            Event::Finish => entry.has_unit() && at.finish == cycle,
            Event::Write => { entry.has_unit() && (entry.step.dest().is_some() && at.end == cycle) }
        }
    }
}

/// Adds a result that is sent: its station, its value, and what takes it.
fn push_sent<A: Allocator>(
    text: &mut String<A>,
    heap: Global,
    values: &Values<'_>,
    view: &View<'_>,
    entry: &Entry,
) -> Result<(), AllocError>
    ensures { OnOk result (Appends (sent_text values.now.steps.now values.now.last.now view.now.cycle
        view.now.entries.now entry.now) text.old text.new) }
{
    let name = Name(entry.station());
    write!(text, "{name}")?;
    push_value(text, values, entry)?;
    text.push_str(" &#8594; ")?;
    push_takers(text, heap, view, entry)
}

/// Adds the text of a step to which it happens.
#[tactic(auto, unfolding(crate::specs::Events::item))]
fn push_item<A: Allocator>(
    text: &mut String<A>,
    heap: Global,
    values: &Values<'_>,
    view: &View<'_>,
    event: Event,
    entry: &Entry,
) -> Result<(), AllocError>
    ensures { OnOk result (Appends (item values.now.steps.now values.now.last.now view.now.cycle
        view.now.entries.now event entry.now) text.old text.new) }
{
    let station = entry.station();
    let name = Name(station);
    match event {
        Event::Issue => {
            let instr = entry.step.instr;
            write!(text, "{instr}")?;
            if station.is_some() {
                write!(text, " &#8594; {name}")?;
            }
            Ok(())
        }
        Event::Address => {
            let address = entry.step.vj.wrapping_add(entry.step.instr.imm());
            write!(text, "{name} A={address:08x}")
        }
        Event::Start | Event::Finish => write!(text, "{name}"),
        Event::Write => push_sent(text, heap, values, view, entry),
    }
}

/// Adds a step, if the event happens to it.
#[tactic(auto, unfolding(crate::specs::Events::item_if))]
fn push_item_if<A: Allocator>(
    text: &mut String<A>,
    heap: Global,
    values: &Values<'_>,
    view: &View<'_>,
    event: Event,
    entry: &Entry,
) -> Result<(), AllocError>
    ensures { OnOk result (Appends (item_if values.now.steps.now values.now.last.now view.now.cycle
        view.now.entries.now event entry.now) text.old text.new) }
{
    if event.happens(view.cycle, entry) {
        text.push_str("<dd>")?;
        push_item(text, heap, values, view, event, entry)?;
        text.push_str("</dd>")?;
    }
    Ok(())
}

/// Adds the steps to which the event happens.
fn push_all_items<A: Allocator>(
    text: &mut String<A>,
    heap: Global,
    values: &Values<'_>,
    view: &View<'_>,
    event: Event,
) -> Result<(), AllocError>
    ensures { OnOk result (
        Appends (flat_map (item_if values.now.steps.now values.now.last.now view.now.cycle view.now.entries.now event)
        view.now.entries.now) text.old text.new) }
{
    for entry in view.entries {
        push_item_if(text, heap, values, view, event, entry)?;
    }
    Ok(())
}

/// True if the event happens to any of these steps.
fn happens_to_any(entries: &[Entry], cycle: u64, event: Event) -> bool
    ensures { result ≡ list_any (happens event cycle) entries.now }
{
    entries.iter().any(|entry| event.happens(cycle, entry))
}

/// Adds the steps to which the event happens, or a dash if there are none.
#[tactic(auto, unfolding(crate::specs::Events::items))]
fn push_items<A: Allocator>(
    text: &mut String<A>,
    heap: Global,
    values: &Values<'_>,
    view: &View<'_>,
    event: Event,
) -> Result<(), AllocError>
    ensures { OnOk result (Appends (items values.now.steps.now values.now.last.now view.now.cycle
        view.now.entries.now event) text.old text.new) }
{
    if happens_to_any(view.entries, view.cycle, event) {
        push_all_items(text, heap, values, view, event)
    } else {
        text.push_str("<dd>-</dd>")
    }
}

#[tactic(auto, unfolding(crate::specs::Events::event_text))]
fn push_event<A: Allocator>(
    text: &mut String<A>,
    heap: Global,
    values: &Values<'_>,
    view: &View<'_>,
    event: Event,
) -> Result<(), AllocError>
    ensures { OnOk result (Appends (event_text values.now.steps.now values.now.last.now view.now.cycle
        view.now.entries.now event) text.old text.new) }
{
    let name = event.name();
    write!(text, "<div><dt>{name}</dt>")?;
    push_items(text, heap, values, view, event)?;
    write!(text, "</div>\n")
}

fn push_all_events<A: Allocator>(
    text: &mut String<A>,
    heap: Global,
    values: &Values<'_>,
    view: &View<'_>,
    events: &[Event],
) -> Result<(), AllocError>
    ensures { OnOk result (
        Appends (flat_map (event_text values.now.steps.now values.now.last.now view.now.cycle view.now.entries.now)
        events.now) text.old text.new) }
{
    for event in events {
        push_event(text, heap, values, view, *event)?;
    }
    Ok(())
}

/// Adds what happens in a view's cycle. `values` are of the whole run.
#[tactic(auto, unfolding(crate::specs::Events::events))]
pub fn push_events<A: Allocator>(
    text: &mut String<A>,
    heap: Global,
    values: &Values<'_>,
    view: &View<'_>,
) -> Result<(), AllocError>
    ensures { OnOk result (Appends (events values.now.steps.now values.now.last.now view.now.cycle
        view.now.entries.now) text.old text.new) }
{
    text.push_str("<dl class=\"e\">\n")?;
    push_all_events(text, heap, values, view, all_events())?;
    write!(text, "</dl>\n")
}
