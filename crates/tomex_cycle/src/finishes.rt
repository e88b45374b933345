//! The cycles in which the operations of the busy stations finish.

ghost use Rattle.std.specs.Prelude.{ℕ, ◌≡◌, ◌<◌, ◌^◌, ◌&&◌, ◌||◌, not};
ghost use Rattle.tomex_bus.specs.Sets.{has};
ghost use Rattle.tomex_bus.specs.Wheel.{IsEmpty};
ghost use Rattle.tomex_cycle.specs.Finishes.{HaveTurned};

use tomex_bus::{Wheel, difference, union};

/// The coming finishes, and the results that wait for a common data bus.
#[derive(Drop)]
pub struct Finishes {
    /// The places of the operations under way, by the number of cycles until they finish.
    pub wheel: Wheel,
    /// The places whose results wait for a common data bus.
    pub unsent: u128,
}

impl Finishes {
    /// No finishes: nothing is under way.
    pub fn new() -> Finishes
        ensures wheel { IsEmpty result.wheel }
        ensures unsent { result.unsent ≡ 0 }
    {
        Finishes {
            wheel: Wheel::new(),
            unsent: 0,
        }
    }

    /// Takes out what finishes in the cycle, and advances to the next one.
    #[inline(always)]
    pub fn turn(&mut self) -> u128
        ensures { HaveTurned self.old self.new result }
    {
        let due = self.wheel.due();
        self.wheel.pass(1);
        due
    }

    /// Removes the results that are sent, and adds those that now wait.
    #[inline(always)]
    pub fn send(&mut self, sent: u128, results: u128)
        ensures wheel { self.new.wheel ≡ self.old.wheel }
        ensures unsent { (x : ℕ) → x < 128
            → has self.new.unsent x ≡ (has self.old.unsent x && not (has sent x) || has results x) }
        ensures fits { self.new.unsent < 2 ^ 128 }
    {
        self.unsent = union(difference(self.unsent, sent), results);
    }
}
