//! The reservation stations: which one of a pool is free first.

ghost use Rattle.std.specs.Prelude.{◌≡◌, ℕ, ◌+◌, ◌^◌, ◌<◌, ◌≤◌, All, map, replicate, slice_set};
ghost use Rattle.tomex_reservations.specs.Reservations.{IsFreeFirst, end_at, station_place};

use tomex_rvdec::PoolId;

/// For each reservation station, the greatest end of the steps that had it, 0 if none had it: 16
/// for each pool, in the order of `PoolId::ALL`.
#[derive(Clone, Copy)]
pub struct Stations {
    pub ends: [u64; 96],
}

/// A cycle with a free station, and the least number of one.
#[derive(Clone, Copy)]
pub struct FreeStation {
    pub cycle: u64,
    pub number: u8,
}

/// The place of a pool's station in `ends`.
fn place_of(pool: PoolId, number: u8) -> usize
    requires { number < 16 }
    ensures place { result ≡ station_place pool number }
    ensures few { result < 96 }
{
    16 * pool.place() + usize::from(number)
}

impl Stations {
    /// The stations before any is taken.
    pub fn none() -> Stations
        ensures { result.ends ≡ replicate 96 0 }
    {
        Stations { ends: [0; 96] }
    }

    /// The first cycle from `from` on in which one of a pool's `count` stations is free.
    #[inline(always)]
    pub fn first(&self, pool: PoolId, count: u8, from: u64) -> FreeStation
        requires some { 1 ≤ count }
        requires few { count ≤ 16 }
        requires small { (n : ℕ) → n < 16 → end_at self.now.ends pool n < 2 ^ 63 }
        ensures { IsFreeFirst self.now.ends pool count from result.cycle result.number }
    {
        let mut soonest = FreeStation {
            cycle: u64::MAX,
            number: 0,
        };
        for number in 0..count {
            // A station is free from the cycle after its step's end.
            let cycle = self.ends[place_of(pool, number)] + 1;
            if cycle <= from {
                return FreeStation {
                    cycle: from,
                    number,
                };
            }
            if cycle < soonest.cycle {
                soonest = FreeStation { cycle, number };
            }
        }
        soonest
    }

    /// Reserves a pool's station for a step, up to the step's end.
    pub fn take(&mut self, pool: PoolId, number: u8, end: u64)
        requires { number < 16 }
        ensures { self.new.ends ≡ slice_set self.old.ends (station_place pool number) end }
    {
        self.ends[place_of(pool, number)] = end;
    }

    /// Moves all ends to later cycles.
    pub fn shift(&mut self, by: u64)
        requires { All (λ end. end + by < 2 ^ 64) self.old.ends }
        ensures { self.new.ends ≡ map (λ end. end + by) self.old.ends }
    {
        for end in self.ends.iter_mut() {
            *end += by;
        }
    }
}
