//! Which stations wait for a result.

ghost use Rattle.std.specs.Prelude.{◌≡◌, ◌<◌, replicate, slice_index, slice_set};
ghost use Rattle.tomex_tags.specs.Listeners.{IsListening};

use crate::places::place;
use tomex_bus::with;
use tomex_timing::Field;

/// For each place, the places of the stations with an operand to come from it.
///
/// They save a broadcast the walk over all stations that wait for something. Entries may be stale,
/// never missing.
#[derive(Clone, Copy)]
pub struct Listeners {
    pub sets: [u128; 96],
}

impl Listeners {
    /// The sets before anything waits.
    pub fn new() -> Listeners
        ensures { result.sets ≡ replicate 96 0 }
    {
        Listeners { sets: [0; 96] }
    }

    /// Enters an operand of the station in a place.
    #[inline(always)]
    pub fn add(&mut self, listener: usize, operand: Field)
        requires { listener < 96 }
        ensures { IsListening listener operand self.old.sets self.new.sets }
    {
        if let Field::Waits(tag) = operand {
            let from = place(tag);
            if from < 96 {
                self.sets[from] = with(self.sets[from], listener);
            }
        }
    }
}
