//! The steps of a run, each with what a page shows of it.

ghost use Rattle.std.specs.Prelude.{◌≡◌, ◌<◌, ◌^◌, length, is_some, IfOk};
ghost use Rattle.tomex_snapshots.specs.Entries.{entries_from, has_unit, is_listed_in, station_of};

use std::alloc::{AllocError, Allocator};
use std::fmt;
use tomex_rvexec::Step;
use tomex_timing::{Tag, Times, Waits};

/// A range of cycles, given by its first and its last.
#[derive(Clone, Copy)]
pub struct Span {
    pub from: u64,
    pub to: u64,
}

/// A step of a run.
#[derive(Clone, Copy)]
pub struct Entry {
    /// The step's number, from 1.
    pub number: usize,
    /// The issue of the step before it, from which on it waits to issue; for the first step cycle 1.
    pub from: u64,
    pub step: Step,
    pub at: Times,
    pub waits: Waits,
}

impl Entry {
    /// The step's station, if it has one.
    pub fn station(&self) -> Option<Tag>
        ensures { result ≡ station_of self.now }
    {
        match (self.step.pool(), self.at.station) {
            (Some(pool), Some(number)) => Some(Tag { pool, number }),
            _ => None,
        }
    }

    /// True if the step uses a unit. FENCE, ECALL and EBREAK use none.
    pub fn has_unit(&self) -> bool
        ensures { result ≡ has_unit self.now }
    {
        self.step.unit().is_some()
    }

    /// True if the step waits to issue in some of these cycles, or has issued and not ended before
    /// them.
    pub fn is_listed_in(&self, span: Span) -> bool
        ensures { result ≡ is_listed_in span self.now }
    {
        self.from <= span.to && span.from <= self.at.end
    }
}

/// A station's name; nothing for `None`.
#[derive(Clone, Copy)]
pub struct Name(pub Option<Tag>);

impl fmt::Display for Name {
    ghost use Rattle.std.specs.Prelude.{Some};
    ghost use Rattle.tomex_snapshots.specs.Entries.{name_text};

    ghost output = { λ name. Some (name_text name.0) };

    fn fmt<W: fmt::Write>(&self, f: &mut fmt::Formatter<W>) -> fmt::Result {
        match self.0 {
            Some(Tag { pool, number }) => write!(f, "{pool}{number}"),
            None => Ok(()),
        }
    }
}

/// The steps of a run, in program order.
pub fn entries_of<A: Allocator>(
    alloc: A,
    steps: &[Step],
    times: &[Times],
    waits: &[Waits],
) -> Result<Vec<Entry, A>, AllocError>
    requires times { length times.now ≡ length steps.now }
    requires waits { length waits.now ≡ length steps.now }
    ensures { IfOk result
        (λ entries. entries.items ≡ entries_from 1 1 steps.now times.now waits.now) }
{
    let mut entries = Vec::new(alloc);
    let mut from = 1;
    for (index, step) in steps.iter().enumerate() {
        let at = times[index];
        entries.push(Entry {
            number: index + 1,
            from,
            step: *step,
            at,
            waits: waits[index],
        })?;
        from = at.issue;
    }
    Ok(entries)
}
