//! What some links of a path have together.

ghost use Rattle.std.specs.Prelude.{◌≡◌, ◌≤◌, ◌<◌, ◌^◌};
ghost use Rattle.tomex_path.specs.Bound.{operations};
ghost use Rattle.tomex_timing.specs.History.{is_of};
ghost use Rattle.tomex_path.specs.Laws.{cycles_of, is_part, is_reason};
ghost use Rattle.tomex_path_views.specs.ByReason.{links_with};
ghost use Rattle.tomex_path_views.specs.Shares.{AreShort, IsShort, share_after, share_of};

use tomex_config::Part;
use tomex_path::{Link, Reason};
use tomex_rvdec::UnitId;

/// How many links there are, how long their steps had waited, and how many cycles are theirs.
#[derive(Clone, Copy)]
pub struct Share {
    pub links: u64,
    pub waits: u64,
    pub cycles: u64,
}

/// The cycles of a link.
pub fn cycles_of(link: &Link) -> u64
    requires order { link.now.from ≤ link.now.to }
    requires small { link.now.to ≤ 2 ^ 35 }
    ensures { result ≡ cycles_of link.now }
{
    link.to + 1 - link.from
}

/// True if a part is this one.
fn is_part(part: Part, of: Part) -> bool
    ensures { result ≡ is_part part of }
{
    match (part, of) {
        (Part::Stations(pool), Part::Stations(other)) => pool.place() == other.place(),
        (Part::Units(unit), Part::Units(other)) => unit.place() == other.place(),
        (Part::Buses, Part::Buses) => true,
        (Part::Width, Part::Width) => true,
        _ => false,
    }
}

/// True if a reason is this one.
pub fn is_reason(reason: Reason, of: Reason) -> bool
    ensures { result ≡ is_reason reason of }
{
    match (reason, of) {
        (Reason::For(part), Reason::For(other)) => is_part(other, part),
        (Reason::Branch, Reason::Branch) => true,
        (Reason::Operand, Reason::Operand) => true,
        (Reason::Address, Reason::Address) => true,
        (Reason::Memory, Reason::Memory) => true,
        (Reason::Order, Reason::Order) => true,
        _ => false,
    }
}

impl Share {
    /// Of no links.
    fn none() -> Share
        ensures { result ≡ record { links = 0; waits = 0; cycles = 0 } }
    {
        Share {
            links: 0,
            waits: 0,
            cycles: 0,
        }
    }

    /// Adds a link.
    fn add(&mut self, link: &Link)
        requires links { self.old.links < 2 ^ 62 }
        requires waits { self.old.waits ≤ 2 ^ 62 }
        requires cycles { self.old.cycles ≤ 2 ^ 62 }
        requires short { IsShort link.now }
        ensures { self.new ≡ share_after self.old link.now }
    {
        self.links += 1;
        self.waits += link.waits;
        self.cycles += cycles_of(link);
    }
}

/// What the links of a path have together that begin no earlier for a reason.
pub fn share_of(path: &[Link], reason: Reason) -> Share
    requires { AreShort path.now }
    ensures { result ≡ share_of (links_with reason path.now) }
{
    let mut share = Share::none();
    for link in path {
        if is_reason(reason, link.reason) {
            share.add(link);
        }
    }
    share
}

/// What all links of a path have together.
pub fn whole_share(path: &[Link]) -> Share
    requires { AreShort path.now }
    ensures { result ≡ share_of path.now }
{
    let mut share = Share::none();
    for link in path {
        share.add(link);
    }
    share
}

/// True if the unit, if there is one, is of this kind.
fn is_of(unit: UnitId, of: Option<UnitId>) -> bool
    ensures { result ≡ is_of unit of }
{
    match of {
        None => false,
        Some(other) => other.place() == unit.place(),
    }
}

/// How many operations of a kind a path has from start to finish.
pub fn operations(path: &[Link], unit: UnitId) -> u64
    ensures { result ≡ operations unit path.now }
{
    let mut count = 0;
    for link in path {
        if is_of(unit, link.operation) {
            count += 1;
        }
    }
    count
}
