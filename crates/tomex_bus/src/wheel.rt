//! The wheel: what is due in the cycles ahead.

ghost use Rattle.std.specs.Prelude.{◌<◌, ◌≤◌};
ghost use Rattle.tomex_bus.specs.Wheel.{AreDue, HasGiven, HasPassed, HasPut, IsClearTo, IsEmpty, IsNext, Lacks};

use crate::sets::with;
use crate::small;
use std::marker::Model;

/// Numbers that are due in one of the 64 cycles ahead, the first of which is 0 ahead.
///
/// A ring of 64 sets, one for each cycle: as cycles pass it turns, and nothing in it moves. It
/// allocates nothing.
#[derive(Drop)]
pub struct Wheel {
    /// The numbers that are due in each cycle.
    sets: [u128; 64],
    /// The places of the sets that have members, a bit each.
    filled: u64,
    /// The place of the cycle that is 0 ahead.
    head: u32,
}

impl Model for Wheel {
    ghost use Rattle.std.specs.Prelude.{ℕ, List};
    ghost use Rattle.tomex_bus.specs.Wheel.{IsRing, ring_from};

    ghost Value = { List ℕ };

    ghost view = { λ w. ring_from w.sets w.head };

    ghost invariant = { λ w. IsRing w.sets w.filled w.head };
}

impl Wheel {
    /// A wheel on which nothing is due.
    pub fn new() -> Wheel
        ensures { IsEmpty result }
    {
        Wheel {
            sets: [0; 64],
            filled: 0,
            head: 0,
        }
    }

    /// Enters a number as due `ahead` cycles ahead.
    #[inline(always)]
    pub fn put(&mut self, ahead: u32, number: usize)
        requires near { ahead ≤ 63 }
        requires low { number < 96 }
        requires apart { Lacks self.old number }
        ensures { HasPut ahead number self.old self.new }
    {
        let place = ((self.head + ahead) % 64) as usize;
        self.sets[place] = with(self.sets[place], number);
        self.filled = small::with(self.filled, place);
    }

    /// How many cycles ahead the next number is due.
    #[inline(always)]
    pub fn next(&self) -> Option<u32>
        ensures { IsNext self.now result }
    {
        let later = self.filled >> self.head;
        if later != 0 {
            return Some(small::lowest(later) as u32);
        }
        if self.filled != 0 {
            return Some(64 - self.head + small::lowest(self.filled) as u32);
        }
        None
    }

    /// Passes `cycles` cycles, in none of which anything is due.
    #[inline(always)]
    pub fn pass(&mut self, cycles: u64)
        requires { IsClearTo self.old cycles }
        ensures { HasPassed cycles self.old self.new }
    {
        self.head = ((u64::from(self.head) + cycles % 64) % 64) as u32;
    }

    /// The set of the numbers that are due 0 cycles ahead.
    #[inline(always)]
    pub fn first(&self) -> u128
        ensures { AreDue self.now result }
    {
        self.sets[self.head as usize]
    }

    /// Takes out the set of the numbers that are due 0 cycles ahead.
    #[inline(always)]
    pub fn due(&mut self) -> u128
        ensures due { AreDue self.old result }
        ensures rest { HasGiven self.old self.new }
    {
        let place = self.head as usize;
        let due = self.sets[place];
        if due != 0 {
            self.sets[place] = 0;
            self.filled = small::without(self.filled, place);
        }
        due
    }
}
