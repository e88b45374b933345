//! The links of a path.

ghost use Rattle.std.specs.Prelude.{◌≡◌, ◌<◌, ◌+◌, ◌^◌, List, length};
ghost use Rattle.tomex_config.specs.Configuration.{Configuration};
ghost use Rattle.tomex_timing.specs.declared.times.Done.{Done};
ghost use Rattle.tomex_path.specs.Path.{hold_by, link_of, operation_in};
ghost use Rattle.tomex_path.specs.Seen.{seen_of};

use crate::event::Holder;
use crate::hold::hold_of;
use crate::note::Seen;
use crate::reason::Reason;
use tomex_rvdec::UnitId;

/// A step on a path, with the cycles of the run that are its own.
#[derive(Clone, Copy, PartialEq, Eq)]
pub struct Link {
    /// The step's number in the run, from 1.
    pub step: u64,
    /// Why it begins no earlier.
    pub reason: Reason,
    /// The cycles that the step had waited for that.
    pub waits: u64,
    /// Its first cycle, and its last.
    pub from: u64,
    pub to: u64,
    /// The unit that the step is in from its start to its finish within these cycles; `None` if it isn't.
    pub operation: Option<UnitId>,
}

/// A link, and which step holds it.
#[derive(Clone, Copy)]
pub(crate) struct Held {
    pub link: Link,
    pub by: Holder,
}

/// The unit that a step is in from its start to its finish within some cycles, if it is.
fn operation_in(seen: &Seen, from: u64, to: u64) -> Option<UnitId>
    ensures { (config : Configuration) (older : List Done) (d : Done) → seen.now ≡ seen_of config older d
        → result ≡ operation_in d from to }
{
    if from <= seen.at.start && seen.at.finish <= to {
        seen.facts.unit
    } else {
        None
    }
}

/// The link of a step with this number, which holds another.
pub(crate) fn link_of(by: Holder, number: u64, seen: &Seen) -> Held
    requires small { seen.now.at.issue < 2 ^ 63 }
    ensures link { (config : Configuration) (older : List Done) (d : Done) → seen.now ≡ seen_of config older d
        → number ≡ length older + 1 → result.link ≡ link_of config by older d }
    ensures by { (config : Configuration) (older : List Done) (d : Done) → seen.now ≡ seen_of config older d
        → result.by ≡ (hold_by config by older d).by }
{
    let event = by.event();
    let hold = hold_of(event, seen);
    let to = event.cycle(&seen.at);
    let link = Link {
        step: number,
        reason: hold.reason,
        waits: hold.reason.waited(seen),
        from: hold.from,
        to,
        operation: operation_in(seen, hold.from, to),
    };
    Held { link, by: hold.by }
}
