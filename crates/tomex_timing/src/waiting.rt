//! The waits of a next step, and what it takes.

ghost use Rattle.std.specs.Prelude.{◌≡◌, ◌^◌, ◌<◌};
ghost use Rattle.tomex_timing.specs.Waiting.{waits_by, taken_from};

use crate::need::Waits;
use crate::next::Next;
use crate::recent::Latest;

/// The amount of each part that one step takes, including what others take of it at the same time: the stations up to
/// its own, the operations that start with it, the results that end with it, the steps that issue with it.
#[derive(Clone, Copy)]
pub struct Taken {
    pub station: u64,
    pub unit: u64,
    pub bus: u64,
    pub width: u64,
}

/// The cycles that a next step waits for each thing.
#[inline(always)]
pub(crate) fn waits_of(latest: &Latest, next: &Next) -> Waits
    requires branch { latest.now.branch < 2 ^ 63 }
    ensures { result ≡ waits_by latest.now next.now.marks next.now.at }
{
    let at = &next.at;
    let marks = &next.marks;
    let low = latest.issue.max(1);
    let branches = low.max(latest.branch + 1);
    Waits {
        branch: branches.saturating_sub(low),
        width: marks.from.saturating_sub(branches),
        station: at.issue.saturating_sub(marks.from),
        operand: marks.operands.saturating_sub(at.issue).saturating_sub(1),
        address: marks.ready.saturating_sub(marks.operands),
        memory: marks.clear.saturating_sub(marks.ready),
        unit: at.start.saturating_sub(marks.clear),
        bus: at.end.saturating_sub(at.finish).saturating_sub(1),
    }
}

/// The amount of each part that a next step takes.
#[inline(always)]
pub(crate) fn parts_taken_by(latest: &Latest, next: &Next) -> Taken
    requires few { latest.now.issued < 2 ^ 63 }
    ensures { result ≡ taken_from latest.now next.now }
{
    let station = match next.at.station {
        None => 0,
        Some(number) => u64::from(number) + 1,
    };
    let width = if next.at.issue == latest.issue {
        latest.issued + 1
    } else {
        1
    };
    Taken {
        station,
        unit: next.units,
        bus: next.buses,
        width,
    }
}
