//! The activity of a step in a cycle, or what it waits for.

ghost use Rattle.std.specs.Prelude.{◌≡◌};
ghost use Rattle.tomex_frames.specs.Cells.{doing_in, issue_cause, start_cause};

use std::fmt;
use tomex_run_views::{Stage, stage_in};
use tomex_snapshots::Entry;
use tomex_timing::Waits;

/// The cause of a wait: to issue, an older branch, the issue width or a station; to start, an operand,
/// its address, an older access or a unit; at the end, a bus.
#[derive(Clone, Copy)]
pub enum Cause {
    Branch,
    Width,
    Station,
    Operand,
    Address,
    Memory,
    Unit,
    Bus,
}

impl fmt::Display for Cause {
    ghost use Rattle.std.specs.Prelude.{Some};
    ghost use Rattle.tomex_frames.specs.Cells.{cause_text};

    ghost output = { λ cause. Some (cause_text cause) };

    fn fmt<W: fmt::Write>(&self, f: &mut fmt::Formatter<W>) -> fmt::Result {
        match *self {
            Cause::Branch => write!(f, "branch"),
            Cause::Width => write!(f, "width"),
            Cause::Station => write!(f, "station"),
            Cause::Operand => write!(f, "operand"),
            Cause::Address => write!(f, "address"),
            Cause::Memory => write!(f, "memory"),
            Cause::Unit => write!(f, "unit"),
            Cause::Bus => write!(f, "bus"),
        }
    }
}

/// The activity of a step in a cycle.
#[derive(Clone, Copy)]
pub enum Doing {
    Issues,
    /// The step computes its address.
    Computes,
    Executes,
    Writes,
    Waits(Cause),
}

/// The activity of a step, in words; nothing for `None`.
#[derive(Clone, Copy)]
pub struct Words(pub Option<Doing>);

impl fmt::Display for Words {
    ghost use Rattle.std.specs.Prelude.{Some};
    ghost use Rattle.tomex_frames.specs.Cells.{doing_text};

    ghost output = { λ words. Some (doing_text words.0) };

    fn fmt<W: fmt::Write>(&self, f: &mut fmt::Formatter<W>) -> fmt::Result {
        match self.0 {
            None => Ok(()),
            Some(Doing::Issues) => write!(f, "issues"),
            Some(Doing::Computes) => write!(f, "address"),
            Some(Doing::Executes) => write!(f, "executes"),
            Some(Doing::Writes) => write!(f, "writes"),
            Some(Doing::Waits(cause)) => write!(f, "waits: {cause}"),
        }
    }
}

/// The cause that a cycle of a step's waits to start is charged to; `waited` other cycles come
/// before it.
fn start_cause(waits: &Waits, waited: u64) -> Cause
    ensures { result ≡ start_cause waits.now waited }
{
    let past_operand = waited.saturating_sub(waits.operand);
    if waited < waits.operand {
        Cause::Operand
    } else if past_operand < waits.address {
        Cause::Address
    } else if past_operand.saturating_sub(waits.address) < waits.memory {
        Cause::Memory
    } else {
        Cause::Unit
    }
}

/// The cause that a cycle of a step's waits to issue is charged to; `waited` other cycles come
/// before it.
fn issue_cause(waits: &Waits, waited: u64) -> Cause
    ensures { result ≡ issue_cause waits.now waited }
{
    if waited < waits.branch {
        Cause::Branch
    } else if waited.saturating_sub(waits.branch) < waits.width {
        Cause::Width
    } else {
        Cause::Station
    }
}

/// The activity of a step in a cycle, if any.
#[tactic(auto, unfolding(crate::specs::Cells::doing_in))]
pub fn doing_in(cycle: u64, entry: &Entry) -> Option<Doing>
    ensures { result ≡ doing_in cycle entry.now }
{
    let issue = entry.at.issue;
    match stage_in(&entry.at, cycle) {
        Some(Stage::Issue) => Some(Doing::Issues),
        Some(Stage::Address) => Some(Doing::Computes),
        Some(Stage::Execute) => Some(Doing::Executes),
        Some(Stage::Write) => Some(Doing::Writes),
        Some(Stage::BusWait) => Some(Doing::Waits(Cause::Bus)),
        Some(Stage::Wait) => {
            let waited = cycle.saturating_sub(issue).saturating_sub(1);
            Some(Doing::Waits(start_cause(&entry.waits, waited)))
        }
        None => {
            if entry.from <= cycle && cycle < issue {
                let waited = cycle.saturating_sub(entry.from);
                Some(Doing::Waits(issue_cause(&entry.waits, waited)))
            } else {
                None
            }
        }
    }
}
