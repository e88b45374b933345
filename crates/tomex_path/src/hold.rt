//! What holds an event of a step.

ghost use Rattle.std.specs.Prelude.{◌≡◌, ◌<◌, ◌^◌, List};
ghost use Rattle.tomex_timing.specs.declared.times.Done.{Done};
ghost use Rattle.tomex_rvexec.specs.Steps.{j_of, k_of, step_unit};
ghost use Rattle.tomex_config.specs.Configuration.{Configuration};
ghost use Rattle.tomex_timing.specs.Needs.{waits_of};
ghost use Rattle.tomex_timing.specs.Tables.{tag_of};
ghost use Rattle.tomex_path.specs.declared.event.Holder.TheVariants.{Writer};
ghost use Rattle.tomex_path.specs.Holds.{hold_address, hold_end, hold_issue, hold_of, hold_start, hold_station};
ghost use Rattle.tomex_path.specs.Holds.{hold_turn, hold_unit, just_ended};
ghost use Rattle.tomex_path.specs.Seen.{seen_of};

use crate::event::{Access, Event, Holder};
use crate::note::{IssueWait, Seen, StartWait};
use crate::reason::Reason;
use tomex_config::Part;
use tomex_timing::Tag;

/// Why an event comes no earlier.
#[derive(Clone, Copy)]
pub struct Hold {
    pub reason: Reason,
    /// The first cycle after the event that holds it.
    pub from: u64,
    /// The step that has that event.
    pub by: Holder,
}

/// What holds the issue of a step that doesn't wait for it.
fn turn_of(seen: &Seen) -> Hold
    requires small { seen.now.at.issue < 2 ^ 63 }
    ensures { (config : Configuration) (older : List Done) (d : Done) → seen.now ≡ seen_of config older d
        → result ≡ hold_turn older d }
{
    let issue = seen.at.issue;
    Hold {
        reason: Reason::Order,
        from: if seen.previous == issue {
            issue + 1
        } else {
            issue
        },
        by: Holder::FirstIssue(issue),
    }
}

/// What holds the issue of a step that waits for a station.
fn station_of(seen: &Seen) -> Hold
    requires small { seen.now.at.issue < 2 ^ 63 }
    ensures { (config : Configuration) (older : List Done) (d : Done) → seen.now ≡ seen_of config older d
        → result ≡ hold_station older d (tag_of d) }
{
    match (seen.facts.pool, seen.at.station) {
        (Some(pool), Some(number)) => Hold {
            reason: Reason::For(Part::Stations(pool)),
            from: seen.at.issue,
            by: Holder::Station(Tag { pool, number }),
        },
        _ => turn_of(seen),
    }
}

/// What holds a step's issue.
fn issue_of(seen: &Seen) -> Hold
    requires small { seen.now.at.issue < 2 ^ 63 }
    ensures { (config : Configuration) (older : List Done) (d : Done) → seen.now ≡ seen_of config older d
        → result ≡ hold_issue older d (waits_of config older d) }
{
    let issue = seen.at.issue;
    match seen.note.issue {
        IssueWait::Station => station_of(seen),
        IssueWait::Width => Hold {
            reason: Reason::For(Part::Width),
            from: issue,
            by: Holder::FirstIssue(issue.saturating_sub(1)),
        },
        IssueWait::Branch => Hold {
            reason: Reason::Branch,
            from: issue,
            by: Holder::Branch,
        },
        IssueWait::Nothing => turn_of(seen),
    }
}

/// What holds the address of a load or store.
fn address_of(seen: &Seen) -> Hold
    requires small { seen.now.at.issue < 2 ^ 63 }
    ensures { (config : Configuration) (older : List Done) (d : Done) → seen.now ≡ seen_of config older d
        → result ≡ hold_address older d (waits_of config older d) }
{
    let address = seen.at.address.unwrap_or(0);
    if seen.at.issue + 1 == address {
        issue_of(seen)
    } else if seen.note.base {
        Hold {
            reason: Reason::Operand,
            from: address,
            by: Holder::Writer(seen.facts.j, None),
        }
    } else {
        Hold {
            reason: Reason::Address,
            from: address,
            by: Holder::Memory,
        }
    }
}

/// The youngest of the producers that end in the cycle before a start.
fn producer_of(seen: &Seen) -> Holder
    ensures { (config : Configuration) (older : List Done) (d : Done) → seen.now ≡ seen_of config older d
        → result ≡ Writer (just_ended older (j_of d.step) d.at.start) (just_ended older (k_of d.step) d.at.start) }
{
    let j = if seen.note.j { seen.facts.j } else { None };
    let k = if seen.note.k { seen.facts.k } else { None };
    Holder::Writer(j, k)
}

/// What holds the start of a step that waits for a unit.
fn unit_of(seen: &Seen) -> Hold
    requires small { seen.now.at.issue < 2 ^ 63 }
    ensures { (config : Configuration) (older : List Done) (d : Done) → seen.now ≡ seen_of config older d
        → result ≡ hold_unit older d (waits_of config older d) (step_unit d.step) }
{
    match seen.facts.unit {
        None => issue_of(seen),
        Some(unit) => Hold {
            reason: Reason::For(Part::Units(unit)),
            from: seen.at.start,
            by: Holder::Unit(unit, seen.at.start.saturating_sub(1)),
        },
    }
}

/// What holds a step's start.
fn start_of(seen: &Seen) -> Hold
    requires small { seen.now.at.issue < 2 ^ 63 }
    ensures { (config : Configuration) (older : List Done) (d : Done) → seen.now ≡ seen_of config older d
        → result ≡ hold_start older d (waits_of config older d) }
{
    match seen.note.start {
        StartWait::Unit => unit_of(seen),
        StartWait::Memory => {
            let access = Access {
                bytes: seen.facts.bytes,
                is_store: seen.facts.is_store,
            };
            Hold {
                reason: Reason::Memory,
                from: seen.at.start,
                by: Holder::Conflict(access, seen.at.start.saturating_sub(1)),
            }
        }
        StartWait::Address => address_of(seen),
        StartWait::Operand => Hold {
            reason: Reason::Operand,
            from: seen.at.start,
            by: producer_of(seen),
        },
        StartWait::Nothing => issue_of(seen),
    }
}

/// What holds a step's end.
fn end_of(seen: &Seen) -> Hold
    requires small { seen.now.at.issue < 2 ^ 63 }
    ensures { (config : Configuration) (older : List Done) (d : Done) → seen.now ≡ seen_of config older d
        → result ≡ hold_end older d (waits_of config older d) }
{
    if seen.bus_wait() > 0 {
        Hold {
            reason: Reason::For(Part::Buses),
            from: seen.at.end,
            by: Holder::Bus(seen.at.end.saturating_sub(1)),
        }
    } else {
        start_of(seen)
    }
}

/// What holds an event of a step.
pub(crate) fn hold_of(event: Event, seen: &Seen) -> Hold
    requires small { seen.now.at.issue < 2 ^ 63 }
    ensures { (config : Configuration) (older : List Done) (d : Done) → seen.now ≡ seen_of config older d
        → result ≡ hold_of event older d (waits_of config older d) }
{
    match event {
        Event::Issue => issue_of(seen),
        Event::Address => address_of(seen),
        Event::Start | Event::Finish => start_of(seen),
        Event::End => end_of(seen),
    }
}
