//! The demands of a run on a configuration's parts: how much at once, and whether that was enough.

ghost use Rattle.std.specs.Prelude.{◌≡◌};
ghost use Rattle.tomex_timing.specs.Demands.{demand_after, demand_of, demands_after, nothing_asked};
ghost use Rattle.tomex_timing.specs.Demands.{stations_asked, units_asked};

use crate::need::Waits;
use crate::recent::Facts;
use crate::waiting::Taken;
use tomex_config::Part;
use tomex_rvdec::{PoolId, UnitId};

/// The most that a run takes of a part at once, and whether any step waits for it. `Need` has the number of cycles.
#[derive(Clone, Copy, PartialEq, Eq)]
pub struct Demand {
    pub peak: u64,
    pub waits: bool,
}

/// The demands of a run on a configuration's parts, and the cycles that it takes.
#[derive(Clone, Copy, PartialEq, Eq)]
pub struct Demands {
    /// In the order of `PoolId::ALL` and of `UnitId::ALL`.
    pub stations: [Demand; 6],
    pub units: [Demand; 5],
    pub buses: Demand,
    pub width: Demand,
    /// The cycles of the run.
    pub total: u64,
}

impl Demand {
    /// Notes a step that takes `taken` of the part at once and waits `waited` cycles for it.
    // Both branches are rare, so that a step costs two comparisons.
    #[inline(always)]
    pub(crate) fn note(&mut self, taken: u64, waited: u64)
        ensures { self.new ≡ demand_after self.old taken waited }
    {
        if self.peak < taken {
            self.peak = taken;
        }
        if 0 < waited {
            self.waits = true;
        }
    }
}

/// Notes what a step takes of its pool, and how long it waits for it.
#[inline(always)]
fn note_station(demands: &mut [Demand; 6], pool: Option<PoolId>, taken: u64, waited: u64)
    ensures { demands.new ≡ stations_asked pool taken waited demands.old }
{
    if let Some(pool) = pool {
        demands[pool.place()].note(taken, waited);
    }
}

/// Notes what a step takes of its kind of unit, and how long it waits for it.
#[inline(always)]
fn note_unit(demands: &mut [Demand; 5], unit: Option<UnitId>, taken: u64, waited: u64)
    ensures { demands.new ≡ units_asked unit taken waited demands.old }
{
    if let Some(unit) = unit {
        demands[unit.place()].note(taken, waited);
    }
}

impl Demands {
    /// The demands of no steps.
    pub fn none() -> Demands
        ensures { result ≡ nothing_asked }
    {
        let nothing = Demand {
            peak: 0,
            waits: false,
        };
        Demands {
            stations: [nothing; 6],
            units: [nothing; 5],
            buses: nothing,
            width: nothing,
            total: 0,
        }
    }

    /// The demand for a part.
    pub fn demand(&self, part: Part) -> Demand
        ensures { result ≡ demand_of self.now part }
    {
        match part {
            Part::Stations(pool) => self.stations[pool.place()],
            Part::Units(unit) => self.units[unit.place()],
            Part::Buses => self.buses,
            Part::Width => self.width,
        }
    }

    /// Notes a step with its waits and with what it takes, but not in the total.
    #[inline(always)]
    pub(crate) fn note(&mut self, facts: &Facts, waits: &Waits, taken: &Taken)
        ensures { self.new ≡ demands_after facts.now waits.now taken.now self.old.total self.old }
    {
        self.buses.note(taken.bus, waits.bus);
        self.width.note(taken.width, waits.width);
        note_station(&mut self.stations, facts.pool, taken.station, waits.station);
        note_unit(&mut self.units, facts.unit, taken.unit, waits.unit);
    }
}
