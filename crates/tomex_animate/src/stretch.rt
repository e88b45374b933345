//! The steps that a page shows, without those before and after them.

ghost use Rattle.std.specs.Prelude.{◌≡◌, ◌≤◌, true, All, drop, length, take};
ghost use Rattle.tomex_animate.specs.Stretch.{IsStretch, earliest, is_later, is_past, latest};

use tomex_snapshots::{Entry, Span};
use tomex_timing::Times;

/// The first of a step's cycles.
fn earliest(at: &Times) -> u64
    ensures { result ≡ earliest at.now }
{
    let address = at.address.unwrap_or(at.issue);
    at.issue
        .min(address.min(at.start.min(at.finish.min(at.end))))
}

/// The last of a step's cycles.
fn latest(at: &Times) -> u64
    ensures { result ≡ latest at.now }
{
    let address = at.address.unwrap_or(0);
    at.issue
        .max(address.max(at.start.max(at.finish.max(at.end))))
}

/// True if a step is in no view from a cycle on.
fn is_past(first: u64, entry: &Entry) -> bool
    ensures { result ≡ is_past first entry.now }
{
    latest(&entry.at) < first.saturating_sub(2)
}

/// True if a step is in no view up to a cycle.
fn is_later(last: u64, entry: &Entry) -> bool
    ensures { result ≡ is_later last entry.now }
{
    last < entry.from && last < earliest(&entry.at)
}

/// The number of steps at the beginning of a run that are in no view from a cycle on.
fn count_past(entries: &[Entry], first: u64) -> usize
    ensures few { result ≤ length entries.now }
    ensures past { All (λ e. is_past first e ≡ true) (take result entries.now) }
{
    let mut count = 0;
    while count < entries.len() && is_past(first, &entries[count]) {
        count += 1;
    }
    count
}

/// The number of steps, not counting those at the end that are in no view up to a cycle.
fn without_later(entries: &[Entry], last: u64) -> usize
    ensures few { result ≤ length entries.now }
    ensures later { All (λ e. is_later last e ≡ true) (drop result entries.now) }
{
    let mut count = entries.len();
    while 0 < count && is_later(last, &entries[count - 1]) {
        count -= 1;
    }
    count
}

/// The steps that are in some view of a page, with all steps between them.
pub fn stretch(entries: &[Entry], page: Span) -> &[Entry]
    ensures { IsStretch page entries.now result.now }
{
    let first = count_past(entries, page.from);
    let rest = &entries[first..];
    let count = without_later(rest, page.to);
    &rest[..count]
}
