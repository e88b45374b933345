//! What the busy stations wait for, as sets of their places.

ghost use Rattle.std.specs.Prelude.{◌≡◌, ◌<◌, IfSome, None, Some, false, true};
ghost use Rattle.tomex_rvdec.specs.Operands.{dest_of};
ghost use Rattle.tomex_bus.specs.Sets.{has};
ghost use Rattle.tomex_tags.specs.Contents.{lacks_address, with_address};
ghost use Rattle.tomex_tags.specs.WaitSets.{HasEntered, IsWithMember, KeepsOthers, IsOut, waits};

use crate::station::Station;
use tomex_bus::{with, with_if, without};
use tomex_timing::Field;

/// Sets of the busy places, by what their stations wait for.
///
/// They follow from the stations, and save a walk over all that are busy.
#[derive(Clone, Copy)]
pub struct WaitSets {
    /// Loads and stores whose address isn't computed yet.
    pub lacking: u128,
    /// Stations whose operations wait only for a unit and for older accesses.
    pub waiting: u128,
    /// Stations whose instruction writes a register.
    pub writing: u128,
}

/// Makes a place a member of the set if `member`; it was none before.
#[inline(always)]
fn join(set: &mut u128, place: usize, member: bool)
    requires low { place < 128 }
    requires out { has set.old place ≡ false }
    ensures { IsWithMember place member set.old set.new }
{
    if member {
        *set = with(*set, place);
    }
}

impl WaitSets {
    /// Enters a station into a place that was free. Returns the register that its instruction
    /// writes.
    #[inline(always)]
    pub fn enter(&mut self, place: usize, station: &Station) -> Option<u8>
        requires low { place < 128 }
        requires out { IsOut place self.old }
        ensures entered { HasEntered place (Some station.now) self.old self.new }
        ensures dest { result ≡ dest_of station.now.instr }
        ensures register { IfSome result (λ r. r < 32) }
    {
        join(&mut self.lacking, place, station.lacks_address());
        join(&mut self.waiting, place, station.is_waiting());
        let dest = station.instr.dest();
        join(&mut self.writing, place, dest.is_some());
        dest
    }

    /// Notes that the station in a place has its address, if its base is there. Everything else of
    /// it is unchanged.
    #[inline(always)]
    pub fn address(&mut self, place: usize, station: &Station)
        requires low { place < 128 }
        requires lacking { has self.old.lacking place ≡ lacks_address (Some station.now) }
        requires waiting { has self.old.waiting place ≡ waits (Some station.now) }
        ensures lacking { IsWithMember place (lacks_address (Some (with_address station.now)))
            self.old.lacking self.new.lacking }
        ensures waiting { IsWithMember place (waits (Some (with_address station.now)))
            self.old.waiting self.new.waiting }
        ensures others { self.new.writing ≡ self.old.writing }
    {
        if let Field::Value(_) = station.j {
            self.lacking = without(self.lacking, place);
            if station.finish.is_none() && station.has_second() {
                self.waiting = with(self.waiting, place);
            }
        }
    }

    /// Notes that the operation of the station in a place has started: it no longer waits.
    #[inline(always)]
    pub fn stop_waiting(&mut self, place: usize)
        requires { place < 128 }
        ensures waiting { IsWithMember place false self.old.waiting self.new.waiting }
        ensures others { KeepsOthers self.old self.new }
    {
        self.waiting = without(self.waiting, place);
    }

    /// Notes that the station in a place has received a result; `waits` is true if it then waits
    /// only for a unit and for older accesses. If it did so before, it does so now.
    #[inline(always)]
    pub fn hear(&mut self, place: usize, waits: bool)
        requires low { place < 128 }
        requires still { has self.old.waiting place ≡ true → waits ≡ true }
        ensures waiting { IsWithMember place waits self.old.waiting self.new.waiting }
        ensures others { KeepsOthers self.old self.new }
    {
        self.waiting = with_if(self.waiting, place, waits);
    }

    /// Notes that a place is free again.
    #[inline(always)]
    pub fn clear(&mut self, place: usize)
        requires { place < 128 }
        ensures { HasEntered place None self.old self.new }
    {
        self.lacking = without(self.lacking, place);
        self.waiting = without(self.waiting, place);
        self.writing = without(self.writing, place);
    }
}
