//! The reservation stations of all pools.

ghost use Rattle.std.specs.Prelude.{ℕ, ◌≡◌, ◌<◌, ◌≤◌, ◌/◌, Some, None, IfSome, IfNone, IsSome};
ghost use Rattle.std.specs.Prelude.{true, false, replicate, slice_index_or, slice_set, length};
ghost use Rattle.tomex_timing.specs.Recurrence.{IsLeast};
ghost use Rattle.tomex_bus.specs.Sets.{IsWith, IsWithout, has};
ghost use Rattle.tomex_rvdec.specs.Operands.{dest_of, pool_of, unit_of, unit_of_pool};
ghost use Rattle.tomex_tags.specs.Places.{pool_at};
ghost use Rattle.tomex_tags.specs.Contents.{hears, lacks_address, busy_at, slot, with_start, with_address};
ghost use Rattle.tomex_tags.specs.Listeners.{awaits};
ghost use Rattle.tomex_tags.specs.Operands.{only};
ghost use Rattle.tomex_tags.specs.Pools.{AreBusy, AreOwn, ChangesStation, HaveHeard, is_open};
ghost use Rattle.tomex_tags.specs.WaitSets.{IsSetOf, has_address, holds_store, waits, waits_for, writes};

use crate::listeners::Listeners;
use crate::places::{STORES, places_served_by, tag};
use crate::station::Station;
use crate::stations::Stations;
use crate::wait_sets::WaitSets;
use std::marker::Model;
use tomex_bus::small::{in_group, least_absent};
use tomex_bus::{both, difference, lowest, with, without, without_lowest};
use tomex_rvdec::{PoolId, UnitId};
use tomex_timing::Busy;

/// The stations of the six pools, by place.
#[derive(Drop)]
pub struct Pools {
    pools: [Stations; 6],
    /// The places of the busy stations.
    busy: u128,
    /// For each place, how many instructions had issued before the one there.
    issue_numbers: [u32; 128],
    wait_sets: WaitSets,
    listeners: Listeners,
}

impl Model for Pools {
    ghost use Rattle.tomex_tags.specs.Pools.{AreFilled, Pools, slots_of};

    ghost Value = { Pools };

    ghost view = { λ p. record { slots = slots_of p.pools; busy = p.busy; issue_numbers = p.issue_numbers } };

    ghost invariant = { λ p. AreFilled p.pools p.busy p.issue_numbers p.wait_sets p.listeners.sets };
}

impl Pools {
    /// The stations before any is busy.
    pub fn new() -> Pools
        ensures slots { result.slots ≡ replicate 96 None }
        ensures busy { result.busy ≡ 0 }
        ensures issue_numbers { result.issue_numbers ≡ replicate 128 0 }
    {
        Pools {
            pools: [
                Stations::new(),
                Stations::new(),
                Stations::new(),
                Stations::new(),
                Stations::new(),
                Stations::new(),
            ],
            busy: 0,
            issue_numbers: [0; 128],
            wait_sets: WaitSets {
                lacking: 0,
                waiting: 0,
                writing: 0,
            },
            listeners: Listeners::new(),
        }
    }

    /// The station in a place, if it is busy.
    #[inline(always)]
    pub fn at(&self, place: usize) -> Option<Station>
        ensures value { result ≡ slot self.now.slots place }
        ensures own { IfSome result
            (λ s. unit_of s.instr.op ≡ Some (unit_of_pool (pool_at (place / 16)))) }
        ensures pool { IfSome result (λ s. pool_of s.instr.op ≡ Some (pool_at (place / 16))) }
        ensures low { IsSome result → place < 96 }
    {
        if place < 96 {
            self.pools[place / 16].at(place % 16)
        } else {
            None
        }
    }

    /// A law: the busy places are those with a station, and each station holds an instruction of its own pool.
    #[inline(always)]
    pub fn keeps_places(&self)
        ensures busy { AreBusy self.now.slots self.now.busy self.now.issue_numbers }
        ensures own { AreOwn self.now.slots }
    {
        let _busy = self.busy;
    }

    /// The places of the busy stations.
    #[inline(always)]
    pub fn busy(&self) -> u128
        ensures set { result ≡ self.now.busy }
        ensures busy { AreBusy self.now.slots result self.now.issue_numbers }
        ensures own { AreOwn self.now.slots }
    {
        self.busy
    }

    /// The places of the loads and stores whose address isn't computed yet.
    #[inline(always)]
    pub fn places_without_address(&self) -> u128
        ensures set { IsSetOf lacks_address self.now.slots result }
        ensures busy { AreBusy self.now.slots self.now.busy self.now.issue_numbers }
    {
        self.wait_sets.lacking
    }

    /// The places of the loads and stores whose address is computed.
    #[inline(always)]
    pub fn places_with_address(&self) -> u128
        ensures set { IsSetOf has_address self.now.slots result }
        ensures busy { AreBusy self.now.slots self.now.busy self.now.issue_numbers }
    {
        difference(
            both(self.busy, places_served_by(UnitId::Mem)),
            self.wait_sets.lacking,
        )
    }

    /// The places of the stores.
    #[inline(always)]
    pub fn stores(&self) -> u128
        ensures set { IsSetOf holds_store self.now.slots result }
        ensures busy { AreBusy self.now.slots self.now.busy self.now.issue_numbers }
    {
        both(self.busy, STORES)
    }

    /// The places whose stations have a result to send: their instructions write a register.
    #[inline(always)]
    pub fn writers(&self) -> u128
        ensures set { IsSetOf writes self.now.slots result }
        ensures busy { AreBusy self.now.slots self.now.busy self.now.issue_numbers }
    {
        self.wait_sets.writing
    }

    /// The places whose operations wait only for a unit and for older accesses.
    #[inline(always)]
    pub fn waiters(&self) -> u128
        ensures set { IsSetOf waits self.now.slots result }
        ensures busy { AreBusy self.now.slots self.now.busy self.now.issue_numbers }
        ensures own { AreOwn self.now.slots }
    {
        self.wait_sets.waiting
    }

    /// Of `waiters`, those whose operations this kind of unit runs.
    #[inline(always)]
    pub fn waiters_for(&self, unit: UnitId) -> u128
        ensures set { IsSetOf (waits_for unit) self.now.slots result }
        ensures busy { AreBusy self.now.slots self.now.busy self.now.issue_numbers }
    {
        both(self.waiters(), places_served_by(unit))
    }

    /// For each place, how many instructions had issued before the one there.
    #[inline(always)]
    pub fn issue_numbers(&self) -> &[u32; 128]
        ensures { result.now ≡ self.now.issue_numbers }
    {
        &self.issue_numbers
    }

    /// Computes the address of the station in a place, if its base is there. A free place stays
    /// free.
    #[inline(always)]
    pub fn compute_address(&mut self, place: usize)
        ensures { ChangesStation place with_address self.old self.new }
    {
        if let Some(station) = self.at(place) {
            self.pools[place / 16].address(place % 16);
            self.wait_sets.address(place, &station);
        }
    }

    /// Starts the operation of the station in a place.
    #[inline(always)]
    pub fn start(&mut self, place: usize, finish: u64, value: u32)
        requires { IsSome (slot self.old.slots place) }
        ensures { ChangesStation place (with_start finish value) self.old self.new }
    {
        if place < 96 {
            self.pools[place / 16].start(place % 16, finish, value);
            self.wait_sets.stop_waiting(place);
        }
    }

    /// Puts a station into a free place. `issue_number` is the number of instructions that had
    /// issued before its own. Returns the register that it writes.
    #[inline(always)]
    pub(crate) fn take(&mut self, place: usize, station: Station, issue_number: u32) -> Option<u8>
        requires place { place < 96 }
        requires open { slot self.old.slots place ≡ None }
        requires own { pool_of station.instr.op ≡ Some (pool_at (place / 16)) }
        ensures slots { self.new.slots ≡ slice_set self.old.slots place (Some station) }
        ensures busy { IsWith self.old.busy place self.new.busy }
        ensures issue_numbers { self.new.issue_numbers
            ≡ slice_set self.old.issue_numbers place issue_number }
        ensures dest { result ≡ dest_of station.instr }
        ensures register { IfSome result (λ r. r < 32) }
    {
        self.pools[place / 16].put(place % 16, Some(station));
        self.listeners.add(place, station.j);
        self.listeners.add(place, station.k);
        self.busy = with(self.busy, place);
        self.issue_numbers[place] = issue_number;
        // Last, because its last test, if a register is written, is also the first one of what an
        // issue does next.
        self.wait_sets.enter(place, &station)
    }

    /// Frees a place.
    #[inline(always)]
    pub fn release(&mut self, place: usize)
        requires { place < 96 }
        ensures slots { self.new.slots ≡ slice_set self.old.slots place None }
        ensures busy { IsWithout self.old.busy place self.new.busy }
        ensures issue_numbers { self.new.issue_numbers ≡ self.old.issue_numbers }
    {
        self.pools[place / 16].put(place % 16, None);
        self.wait_sets.clear(place);
        self.busy = without(self.busy, place);
    }

    /// The least number of a free station of a pool that has `count` stations.
    #[inline(always)]
    pub fn free(&self, pool: PoolId, count: u8) -> Option<u8>
        requires { count ≤ 16 }
        ensures some { IfSome result (λ n. IsLeast (is_open self.now.slots pool) n × (n < count)) }
        ensures none { IfNone result ((n : ℕ) → n < count → is_open self.now.slots pool n ≡ false) }
    {
        let number = least_absent(in_group(self.busy, pool.place())) as u8;
        if number < count { Some(number) } else { None }
    }

    /// The tables' entry for each place.
    pub fn busy_entries(&self) -> [Option<Busy>; 96]
        ensures count { length result ≡ 96 }
        ensures each { (x : ℕ) → x < 96 → slice_index_or result x None ≡ busy_at self.now.slots x }
    {
        let mut busy: [Option<Busy>; 96] = [None; 96];
        for place in 0..96 {
            busy[place] = self.busy_at(place);
        }
        busy
    }

    fn busy_at(&self, place: usize) -> Option<Busy>
        ensures { result ≡ busy_at self.now.slots place }
    {
        match self.at(place) {
            Some(station) => Some(station.busy_entry(tag(place))),
            None => None,
        }
    }

    /// Replaces each Q that names a place by V.
    #[inline(always)]
    pub(crate) fn hear(&mut self, from: usize, value: u32)
        ensures { HaveHeard (only from (Some value)) self.old self.new }
    {
        let mut rest = self.listeners_to(from);
        'members: while rest != 0 {
            let place = lowest(rest);
            rest = without_lowest(rest);
            if place < 96 {
                self.hear_at(place, from, value);
            }
        }
        self.forget(from);
    }

    /// Replaces each Q that names `from` by V in the station in a place, if it is busy.
    #[inline(always)]
    fn hear_at(&mut self, place: usize, from: usize, value: u32)
        requires { place < 96 }
        ensures { ChangesStation place (hears (only from (Some value))) self.old self.new }
    {
        let waits = self.pools[place / 16].hear(place % 16, from, value);
        self.wait_sets.hear(place, waits);
    }

    /// The places of all stations with an operand to come from a place; there may be others among
    /// them.
    #[inline(always)]
    fn listeners_to(&self, from: usize) -> u128
        ensures each { (x : ℕ) → x < 96 → awaits from (slot self.now.slots x) ≡ true
            → has result x ≡ true }
        ensures busy { AreBusy self.now.slots self.now.busy self.now.issue_numbers }
    {
        if from < 96 {
            self.listeners.sets[from]
        } else {
            self.busy
        }
    }

    /// Empties the set of a place: no station has an operand to come from it any more.
    #[inline(always)]
    fn forget(&mut self, from: usize)
        requires { (x : ℕ) → x < 96 → awaits from (slot self.old.slots x) ≡ false }
        ensures { self.new ≡ self.old }
    {
        if from < 96 {
            self.listeners.sets[from] = 0;
        }
    }
}
