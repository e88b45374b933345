//! One plateau.

ghost use Rattle.std.specs.Prelude.{◌≡◌, ◌<◌, slice_index};
ghost use Rattle.tomex_plateaus.specs.Plateaus.{bounds_of, counts_of, fits, interval_at, is_within, lies_on};
ghost use Rattle.tomex_plateaus.specs.Plateaus.{numbers_of};
ghost use Rattle.tomex_plateaus.specs.Plateaus.{latency_for, place_of_count, plateau_of, stations_for, units_for};

use crate::interval::Interval;
use tomex_config::{Config, Part};
use tomex_rvdec::{PoolId, UnitId};
use tomex_timing::Demands;

/// A region of the design space, and the cycles that a program takes on every configuration of it. The region is given
/// by the least and the most of each of a configuration's numbers, in the order of `numbers_of`.
#[derive(Clone, Copy, PartialEq, Eq)]
pub struct Plateau {
    pub least: [u8; 18],
    pub most: [u8; 18],
    pub total: u64,
}

/// A configuration's numbers: the counts of all parts, in the order of `Part::ALL`, and the latencies of all kinds of
/// units, in that of `UnitId::ALL`.
pub(crate) fn numbers_of(config: &Config) -> [u8; 18]
    ensures { result ≡ numbers_of config.now }
{
    [
        config.stations(PoolId::Alu),
        config.stations(PoolId::Mul),
        config.stations(PoolId::Div),
        config.stations(PoolId::Load),
        config.stations(PoolId::Store),
        config.stations(PoolId::Bru),
        config.units(UnitId::Alu),
        config.units(UnitId::Mul),
        config.units(UnitId::Div),
        config.units(UnitId::Mem),
        config.units(UnitId::Bru),
        config.buses(),
        config.width(),
        config.latency(UnitId::Alu),
        config.latency(UnitId::Mul),
        config.latency(UnitId::Div),
        config.latency(UnitId::Mem),
        config.latency(UnitId::Bru),
    ]
}

/// The numbers of a pool's stations that give a run the same cycles as its own configuration.
fn stations_for(demands: &Demands, own: &Config, pool: PoolId) -> Interval
    ensures { result ≡ stations_for demands.now own.now pool }
{
    Interval::of_counts(demands.demand(Part::Stations(pool)), own.stations(pool))
}

/// The numbers of a kind's units that give a run the same cycles.
fn units_for(demands: &Demands, own: &Config, unit: UnitId) -> Interval
    ensures { result ≡ units_for demands.now own.now unit }
{
    Interval::of_counts(demands.demand(Part::Units(unit)), own.units(unit))
}

/// The latencies of a kind of unit that give a run the same cycles.
fn latency_for(demands: &Demands, own: &Config, unit: UnitId) -> Interval
    ensures { result ≡ latency_for demands.now own.now unit }
{
    Interval::of_latencies(demands.demand(Part::Units(unit)), own.latency(unit))
}

/// The intervals of all numbers, in the order of `numbers_of`.
fn bounds_of(demands: &Demands, own: &Config) -> [Interval; 18]
    ensures { result ≡ bounds_of demands.now own.now }
{
    [
        stations_for(demands, own, PoolId::Alu),
        stations_for(demands, own, PoolId::Mul),
        stations_for(demands, own, PoolId::Div),
        stations_for(demands, own, PoolId::Load),
        stations_for(demands, own, PoolId::Store),
        stations_for(demands, own, PoolId::Bru),
        units_for(demands, own, UnitId::Alu),
        units_for(demands, own, UnitId::Mul),
        units_for(demands, own, UnitId::Div),
        units_for(demands, own, UnitId::Mem),
        units_for(demands, own, UnitId::Bru),
        Interval::of_counts(demands.buses, own.buses()),
        Interval::of_counts(demands.width, own.width()),
        latency_for(demands, own, UnitId::Alu),
        latency_for(demands, own, UnitId::Mul),
        latency_for(demands, own, UnitId::Div),
        latency_for(demands, own, UnitId::Mem),
        latency_for(demands, own, UnitId::Bru),
    ]
}

/// The place of a part's count among the numbers.
fn place_of(part: Part) -> usize
    ensures place { result ≡ place_of_count part }
    ensures range { result < 13 }
{
    match part {
        Part::Stations(pool) => pool.place(),
        Part::Units(unit) => 6 + unit.place(),
        Part::Buses => 11,
        Part::Width => 12,
    }
}

impl Plateau {
    /// The plateau that follows from the demands of a run on its own configuration.
    pub fn of(demands: &Demands, own: &Config) -> Plateau
        ensures { result ≡ plateau_of demands.now own.now }
    {
        let bounds = bounds_of(demands, own);
        let mut least = [0; 18];
        let mut most = [0; 18];
        for (place, interval) in bounds.iter().enumerate() {
            least[place] = interval.least;
            most[place] = interval.most;
        }
        Plateau {
            least,
            most,
            total: demands.total,
        }
    }

    /// True if a configuration lies on it.
    pub fn has(&self, config: &Config) -> bool
        ensures { result ≡ lies_on config.now self.now }
    {
        self.has_numbers(&numbers_of(config))
    }

    /// True if a number is in the plateau's interval at this place.
    fn has_number(&self, numbers: &[u8; 18], place: usize) -> bool
        requires { place < 18 }
        ensures { result ≡ is_within (interval_at self.now place) (slice_index numbers.now place) }
    {
        let number = numbers[place];
        (self.least[place] <= number) & (number <= self.most[place])
    }

    /// True if the configuration with these numbers lies on it. The first sixteen are compared without a jump, so that
    /// the compiler compares all of them at once; few plateaus are left then.
    #[inline(always)]
    pub(crate) fn has_numbers(&self, numbers: &[u8; 18]) -> bool
        ensures { result ≡ fits numbers.now self.now }
    {
        let mut has_all = true;
        for place in 0..16 {
            has_all = has_all & self.has_number(numbers, place);
        }
        if !has_all {
            return false;
        }
        self.has_number(numbers, 16) & self.has_number(numbers, 17)
    }

    /// The least count of a part on it.
    pub(crate) fn least_count(&self, part: Part) -> u64
        ensures { result ≡ (counts_of self.now part).least }
    {
        u64::from(self.least[place_of(part)])
    }
}
