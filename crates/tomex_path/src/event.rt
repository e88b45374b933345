//! The events of a step, and which older step has the one that holds another.

ghost use Rattle.std.specs.Prelude.{◌≡◌, List, Option, Some};
ghost use Rattle.tomex_rvexec.specs.Steps.{is_in, is_number, shares_byte};
ghost use Rattle.tomex_config.specs.Configuration.{Configuration};
ghost use Rattle.tomex_timing.specs.History.{is_of};
ghost use Rattle.tomex_timing.specs.declared.times.Done.{Done};
ghost use Rattle.tomex_path.specs.Holds.{cycle_at, event_of, is_dest, passes};
ghost use Rattle.tomex_path.specs.Seen.{seen_of};

use crate::note::Seen;
use tomex_rvdec::{PoolId, UnitId};
use tomex_rvexec::ByteRange;
use tomex_timing::{Tag, Times};

/// The events of a step.
#[derive(Clone, Copy)]
pub enum Event {
    Issue,
    Address,
    Start,
    Finish,
    End,
}

/// An access to memory: its bytes, if there are any, and whether it is a store.
#[derive(Clone, Copy)]
pub struct Access {
    pub bytes: Option<ByteRange>,
    pub is_store: bool,
}

/// The step that has the event that holds another: of the older steps the youngest of this kind.
#[derive(Clone, Copy)]
pub enum Holder {
    /// One that ends later than each older step.
    Last,
    /// The first that issues in a cycle.
    FirstIssue(u64),
    Branch,
    /// One that has had the station.
    Station(Tag),
    /// One that writes a register, or another.
    Writer(Option<u8>, Option<u8>),
    /// A load or store.
    Memory,
    /// One in conflict with an access that finishes in a cycle.
    Conflict(Access, u64),
    /// One that starts on a unit of the kind in a cycle.
    Unit(UnitId, u64),
    /// One with a result, which ends in a cycle.
    Bus(u64),
}

impl Event {
    /// Its cycle; 0 for the address of a step that has none.
    pub fn cycle(self, at: &Times) -> u64
        ensures { result ≡ cycle_at self at.now }
    {
        match self {
            Event::Issue => at.issue,
            Event::Address => at.address.unwrap_or(0),
            Event::Start => at.start,
            Event::Finish => at.finish,
            Event::End => at.end,
        }
    }
}

/// True if a step that takes a station takes one of this pool.
fn is_in(pool: PoolId, of: Option<PoolId>) -> bool
    ensures { result ≡ is_in pool of }
{
    match of {
        None => false,
        Some(other) => other.place() == pool.place(),
    }
}

/// True if the unit, if there is one, is of this kind.
fn is_of(unit: UnitId, of: Option<UnitId>) -> bool
    ensures { result ≡ is_of unit of }
{
    match of {
        None => false,
        Some(other) => other.place() == unit.place(),
    }
}

/// True if there is a number, and it is this one.
fn is_number(number: Option<u8>, wanted: u8) -> bool
    ensures { result ≡ is_number number wanted }
{
    match number {
        None => false,
        Some(number) => number == wanted,
    }
}

/// True if there is a register, and it is the destination.
fn is_dest(register: Option<u8>, dest: Option<u8>) -> bool
    ensures { result ≡ is_dest register dest }
{
    match register {
        None => false,
        Some(register) => is_number(dest, register),
    }
}

/// True if there are both ranges, and they share a byte.
fn shares_byte(a: Option<ByteRange>, b: Option<ByteRange>) -> bool
    ensures { result ≡ shares_byte a b }
{
    match (a, b) {
        (Some(a), Some(b)) => a.shares_byte(b),
        _ => false,
    }
}

impl Holder {
    /// The event of the step that holds.
    pub fn event(self) -> Event
        ensures { result ≡ event_of self }
    {
        match self {
            Holder::Last | Holder::Station(_) | Holder::Writer(..) | Holder::Bus(_) => Event::End,
            Holder::FirstIssue(_) => Event::Issue,
            Holder::Branch | Holder::Conflict(..) => Event::Finish,
            Holder::Memory => Event::Address,
            Holder::Unit(..) => Event::Start,
        }
    }

    /// True if a step is of this kind.
    pub(crate) fn is(self, seen: &Seen) -> bool
        ensures { (config : Configuration) (older : List Done) (d : Done) → seen.now ≡ seen_of config older d
            → result ≡ passes self older d }
    {
        let facts = &seen.facts;
        match self {
            Holder::Last => seen.note.is_last,
            Holder::FirstIssue(cycle) => seen.at.issue == cycle && seen.previous < cycle,
            Holder::Branch => facts.is_branch,
            Holder::Station(tag) => {
                is_in(tag.pool, facts.pool) && is_number(seen.at.station, tag.number)
            }
            Holder::Writer(one, other) => is_dest(one, facts.dest) || is_dest(other, facts.dest),
            Holder::Memory => facts.is_memory(),
            Holder::Conflict(access, finish) => {
                shares_byte(facts.bytes, access.bytes)
                    && (facts.is_store || access.is_store)
                    && seen.at.finish == finish
            }
            Holder::Unit(unit, start) => is_of(unit, facts.unit) && seen.at.start == start,
            Holder::Bus(end) => facts.dest.is_some() && seen.at.end == end,
        }
    }
}
