//! The reservation table: how many units of each kind, and how many buses, are taken in the cycles ahead.

ghost use Rattle.std.specs.Prelude.{◌≡◌, ℕ, ◌+◌, ◌-◌, ◌^◌, ◌<◌, ◌≤◌, ◌↔◌, IfOk, IsTrue, OnErr, OnOk, length, max, []};
ghost use Rattle.tomex_reservations.specs.Reservations.{Reserved, is_left, slot_at, taken_at, taken_with, IsFirst};

use std::alloc::{AllocError, Allocator};
use std::marker::Model;

/// The line of the buses. Before it come those of the kinds of unit, in the order of `UnitId::ALL`.
pub const BUSES: usize = 5;

/// The number of cycles by which the table grows.
const STRIDE: usize = 64;

/// The number of past cycles that are dropped at once.
const PAST: u64 = 1024;

/// How many of each line are taken in each cycle.
#[derive(Drop)]
pub struct ReservationTable<A: Allocator> {
    /// The first cycle of the table.
    base: u64,
    /// The lines of each cycle from `base` on. Nothing is taken past its end. Two of the eight
    /// lines are unused, so that a cycle's place is found by a shift.
    slots: Vec<[u8; 8], A>,
}

impl<A: Allocator> Model for ReservationTable<A> {
    ghost use Rattle.tomex_reservations.specs.Reservations.{Reserved};

    ghost Value = { Reserved };

    ghost view = { λ t. record { base = t.base; slots = t.slots.items } };
}

/// A cycle in which one of a line is left, and how many are taken in it, including that one.
#[derive(Clone, Copy)]
pub struct Room {
    pub cycle: u64,
    pub taken: u64,
}

impl<A: Allocator> ReservationTable<A> {
    /// A table in which nothing is taken.
    pub fn new(alloc: A) -> ReservationTable<A>
        ensures { result ≡ record { base = 0; slots = [] } }
    {
        ReservationTable {
            base: 0,
            slots: Vec::new(alloc),
        }
    }

    /// How many of a line are taken in a cycle.
    #[inline(always)]
    fn count_taken(&self, line: usize, cycle: u64) -> u8
        requires line { line < 6 }
        requires ahead { self.now.base ≤ cycle }
        ensures { result ≡ taken_at self.now line cycle }
    {
        match self.slots.get((cycle - self.base) as usize) {
            None => 0,
            Some(slot) => slot[line],
        }
    }

    /// The first cycle from `from` on in which one of a line is free: fewer are taken than its capacity. None are taken
    /// after the cycle `last_taken`.
    // Usually it is `from` itself; the search is out of line, so that this test is only a few
    // instructions.
    #[inline(always)]
    pub fn first_free(&self, line: usize, capacity: u8, from: u64, last_taken: u64) -> Room
        requires line { line < 6 }
        requires capacity { 1 ≤ capacity }
        requires ahead { self.now.base ≤ from }
        requires quiet { (t : ℕ) → last_taken < t → taken_at self.now line t ≡ 0 }
        requires from { from < 2 ^ 63 + 128 }
        requires small { last_taken < 2 ^ 63 }
        ensures first { IsFirst from (is_left self.now line capacity) result.cycle }
        ensures taken { result.taken ≡ taken_at self.now line result.cycle + 1 }
        ensures from { from ≤ result.cycle }
        ensures by { result.cycle ≤ max from (last_taken + 1) }
    {
        let taken = self.count_taken(line, from);
        if taken < capacity {
            Room {
                cycle: from,
                taken: u64::from(taken) + 1,
            }
        } else {
            self.search(line, capacity, from, last_taken)
        }
    }

    /// `first_free`, by a search.
    #[inline(never)]
    fn search(&self, line: usize, capacity: u8, from: u64, last_taken: u64) -> Room
        requires line { line < 6 }
        requires capacity { 1 ≤ capacity }
        requires ahead { self.now.base ≤ from }
        requires quiet { (t : ℕ) → last_taken < t → taken_at self.now line t ≡ 0 }
        requires from { from < 2 ^ 63 + 128 }
        requires small { last_taken < 2 ^ 63 }
        ensures first { IsFirst from (is_left self.now line capacity) result.cycle }
        ensures taken { result.taken ≡ taken_at self.now line result.cycle + 1 }
        ensures from { from ≤ result.cycle }
        ensures by { result.cycle ≤ max from (last_taken + 1) }
    {
        let mut cycle = from;
        loop {
            let taken = self.count_taken(line, cycle);
            if taken < capacity {
                return Room {
                    cycle,
                    taken: u64::from(taken) + 1,
                };
            }
            cycle += 1;
        }
    }

    /// Makes room up to and including a place.
    #[inline(always)]
    fn grow(&mut self, place: usize) -> Result<(), AllocError>
        ensures base { self.new.base ≡ self.old.base }
        ensures room { OnOk result (place < length self.new.slots) }
        ensures same { (l t : ℕ) → taken_at self.new l t ≡ taken_at self.old l t }
    {
        if self.slots.len() <= place {
            self.extend(place)
        } else {
            Ok(())
        }
    }

    /// `grow`, for a place past the end.
    #[cold]
    #[inline(never)]
    fn extend(&mut self, place: usize) -> Result<(), AllocError>
        requires past { length self.old.slots ≤ place }
        ensures base { self.new.base ≡ self.old.base }
        ensures room { OnOk result (place < length self.new.slots) }
        ensures same { (l t : ℕ) → taken_at self.new l t ≡ taken_at self.old l t }
    {
        self.slots.resize(place.saturating_add(STRIDE), [0; 8])
    }

    /// Takes one more of a line in a cycle.
    #[inline(always)]
    pub fn take(&mut self, line: usize, cycle: u64) -> Result<(), AllocError>
        requires line { line < 6 }
        requires ahead { self.old.base ≤ cycle }
        requires few { taken_at self.old line cycle < 255 }
        ensures base { self.new.base ≡ self.old.base }
        ensures taken { OnOk result
            ((l t : ℕ) → l < 6 → self.old.base ≤ t → taken_at self.new l t ≡ taken_with self.old line cycle l t) }
        ensures refused { OnErr result
            ((l t : ℕ) → taken_at self.new l t ≡ taken_at self.old l t) }
    {
        let place = (cycle - self.base) as usize;
        self.grow(place)?;
        self.slots[place][line] += 1;
        Ok(())
    }

    /// Takes one of a line in the first cycle from `from` on in which fewer are taken than its capacity. None are taken
    /// after the cycle `last_taken`.
    #[inline(always)]
    pub fn reserve(
        &mut self,
        line: usize,
        capacity: u8,
        from: u64,
        last_taken: u64,
    ) -> Result<Room, AllocError>
        requires line { line < 6 }
        requires capacity { 1 ≤ capacity }
        requires ahead { self.old.base ≤ from }
        requires quiet { (t : ℕ) → last_taken < t → taken_at self.old line t ≡ 0 }
        requires from { from < 2 ^ 63 + 128 }
        requires small { last_taken < 2 ^ 63 }
        ensures first { IfOk result (λ r. IsFirst from (is_left self.old line capacity) r.cycle) }
        ensures taken { IfOk result (λ r. r.taken ≡ taken_at self.old line r.cycle + 1) }
        ensures from { IfOk result (λ r. from ≤ r.cycle) }
        ensures by { IfOk result (λ r. r.cycle ≤ max from (last_taken + 1)) }
        ensures base { self.new.base ≡ self.old.base }
        ensures with { IfOk result (λ r. (l t : ℕ) → l < 6 → self.old.base ≤ t
            → taken_at self.new l t ≡ taken_with self.old line r.cycle l t) }
        ensures refused { OnErr result ((l t : ℕ) → taken_at self.new l t ≡ taken_at self.old l t) }
    {
        let place = (from - self.base) as usize;
        // Usually this cycle has room, and one access finds and takes it.
        if place < self.slots.len() && self.slots[place][line] < capacity {
            let taken = self.slots[place][line];
            self.slots[place][line] = taken + 1;
            return Ok(Room {
                cycle: from,
                taken: u64::from(taken) + 1,
            });
        }
        self.reserve_later(line, capacity, from, last_taken)
    }

    /// `reserve`, by a search.
    #[inline(never)]
    fn reserve_later(
        &mut self,
        line: usize,
        capacity: u8,
        from: u64,
        last_taken: u64,
    ) -> Result<Room, AllocError>
        requires line { line < 6 }
        requires capacity { 1 ≤ capacity }
        requires ahead { self.old.base ≤ from }
        requires quiet { (t : ℕ) → last_taken < t → taken_at self.old line t ≡ 0 }
        requires from { from < 2 ^ 63 + 128 }
        requires small { last_taken < 2 ^ 63 }
        ensures first { IfOk result (λ r. IsFirst from (is_left self.old line capacity) r.cycle) }
        ensures taken { IfOk result (λ r. r.taken ≡ taken_at self.old line r.cycle + 1) }
        ensures from { IfOk result (λ r. from ≤ r.cycle) }
        ensures by { IfOk result (λ r. r.cycle ≤ max from (last_taken + 1)) }
        ensures base { self.new.base ≡ self.old.base }
        ensures with { IfOk result (λ r. (l t : ℕ) → l < 6 → self.old.base ≤ t
            → taken_at self.new l t ≡ taken_with self.old line r.cycle l t) }
        ensures refused { OnErr result ((l t : ℕ) → taken_at self.new l t ≡ taken_at self.old l t) }
    {
        let room = self.first_free(line, capacity, from, last_taken);
        self.take(line, room.cycle)?;
        Ok(room)
    }

    /// Drops the cycles before `cycle`, if there are many: nothing asks for them any more.
    #[inline(always)]
    pub fn pass(&mut self, cycle: u64)
        requires later { self.old.base ≤ cycle }
        ensures base { self.new.base ≤ cycle }
        ensures near { cycle < self.new.base + 1024 }
        ensures same { (l t : ℕ) → cycle ≤ t → taken_at self.new l t ≡ taken_at self.old l t }
    {
        if cycle - self.base >= PAST {
            self.forget(cycle);
        }
    }

    /// Drops the cycles before `cycle`.
    #[cold]
    #[inline(never)]
    fn forget(&mut self, cycle: u64)
        requires later { self.old.base ≤ cycle }
        ensures base { self.new.base ≡ cycle }
        ensures same { (l t : ℕ) → cycle ≤ t → taken_at self.new l t ≡ taken_at self.old l t }
    {
        let past = (cycle - self.base) as usize;
        if past < self.slots.len() {
            let rest = self.slots.len() - past;
            self.slots.copy_within(past.., 0);
            self.slots.truncate(rest);
        } else {
            self.slots.clear();
        }
        self.base = cycle;
    }

    /// Moves all that is taken to later cycles.
    pub fn shift(&mut self, by: u64)
        requires small { self.old.base + by < 2 ^ 64 }
        ensures base { self.new.base ≡ self.old.base + by }
        ensures moved { (l t : ℕ) → taken_at self.new l (t + by) ≡ taken_at self.old l t }
    {
        self.base += by;
    }

    /// Makes this a copy of another table's cycles from `from` on, in the memory that it has. Without memory for them
    /// nothing is taken in it.
    pub fn copy_from(&mut self, other: &ReservationTable<A>, from: u64) -> Result<(), AllocError>
        requires later { other.now.base ≤ from }
        ensures base { self.new.base ≡ from }
        ensures same { OnOk result ((l t : ℕ) → from ≤ t → taken_at self.new l t ≡ taken_at other.now l t) }
        ensures refused { OnErr result ((l t : ℕ) → taken_at self.new l t ≡ 0) }
    {
        self.base = from;
        self.slots.clear();
        let past = (from - other.base) as usize;
        if past < other.slots.len() {
            self.slots.extend_from_slice(&other.slots[past..])
        } else {
            Ok(())
        }
    }

    /// The lines of a cycle.
    fn slot(&self, cycle: u64) -> [u8; 8]
        requires ahead { self.now.base ≤ cycle }
        ensures { result ≡ slot_at self.now cycle }
    {
        match self.slots.get((cycle - self.base) as usize) {
            None => [0; 8],
            Some(slot) => *slot,
        }
    }

    /// True if in each of the `ahead` cycles after `here` as much of each line is taken as in the other table as many
    /// cycles after `there`.
    pub fn looks_like(&self, here: u64, other: &ReservationTable<A>, there: u64, ahead: u64) -> bool
        requires here { self.now.base ≤ here + 1 }
        requires there { other.now.base ≤ there + 1 }
        requires small { here + ahead < 2 ^ 64 }
        requires other_small { there + ahead < 2 ^ 64 }
        ensures { IsTrue result
            ↔ ((l t : ℕ) → 0 < t → t ≤ ahead → taken_at self.now l (here + t) ≡ taken_at other.now l (there + t)) }
    {
        for later in 1..=ahead {
            if self.slot(here + later) != other.slot(there + later) {
                return false;
            }
        }
        true
    }
}
