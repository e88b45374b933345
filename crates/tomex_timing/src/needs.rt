//! The needs of a run: what it takes of a configuration's parts, and how long its steps wait for
//! each of them.

ghost use Rattle.std.specs.Prelude.{◌≡◌, ◌+◌, ◌-◌, ◌^◌, ◌<◌, ◌≤◌, slice_index_or};
ghost use Rattle.tomex_rvdec.specs.Places.{place_of_pool, place_of_unit};
ghost use Rattle.tomex_rvdec.specs.declared.pool.PoolId.{PoolId};
ghost use Rattle.tomex_rvdec.specs.declared.pool.UnitId.{UnitId};
ghost use Rattle.tomex_timing.specs.Needs.{no_need, need_of, allows, suffice};
ghost use Rattle.tomex_timing.specs.Waiting.{AreWithin, IsWithin, nothing_needed, need_after};
ghost use Rattle.tomex_timing.specs.Waiting.{needs_after, stations_after, units_after};

use crate::need::{Need, Waits};
use crate::recent::Facts;
use crate::times::Times;
use crate::waiting::Taken;
use tomex_config::{Config, Part};
use tomex_rvdec::{PoolId, UnitId};

/// The needs of a run on a configuration: what it takes of the parts, and how long its steps wait for them, in cycles.
#[derive(Clone, Copy, PartialEq, Eq)]
pub struct Needs {
    /// In the order of `PoolId::ALL` and of `UnitId::ALL`.
    pub stations: [Need; 6],
    pub units: [Need; 5],
    pub buses: Need,
    pub width: Need,
    /// The cycles in which steps wait for something other than a part: to issue, for older branches; to start, for an
    /// operand, for an address and for older accesses.
    pub branch: u64,
    pub operand: u64,
    pub address: u64,
    pub memory: u64,
    /// The last step's issue; 0 if there are no steps.
    pub last_issue: u64,
    /// The cycles of the run.
    pub total: u64,
}

impl Need {
    /// The need after one more step, which takes `taken` of the part at once and waits `waited`
    /// cycles for it.
    fn after(self, taken: u64, waited: u64) -> Need
        requires small { self.stalls + waited < 2 ^ 64 }
        ensures { result ≡ need_after self taken waited }
    {
        Need {
            peak: taken.max(self.peak),
            stalls: waited + self.stalls,
        }
    }
}

/// Notes what a step takes of its pool, and how long it waits for it.
fn note_station(needs: &mut [Need; 6], pool: Option<PoolId>, taken: u64, waited: u64)
    requires needs { (p : PoolId)
        → (slice_index_or needs.old (place_of_pool p) no_need).stalls ≤ 2 ^ 63 }
    requires waited { waited ≤ 2 ^ 62 }
    ensures { needs.new ≡ stations_after pool taken waited needs.old }
{
    if let Some(pool) = pool {
        let place = pool.place();
        needs[place] = needs[place].after(taken, waited);
    }
}

/// Notes what a step takes of its kind of unit, and how long it waits for it.
fn note_unit(needs: &mut [Need; 5], unit: Option<UnitId>, taken: u64, waited: u64)
    requires needs { (u : UnitId)
        → (slice_index_or needs.old (place_of_unit u) no_need).stalls ≤ 2 ^ 63 }
    requires waited { waited ≤ 2 ^ 62 }
    ensures { needs.new ≡ units_after unit taken waited needs.old }
{
    if let Some(unit) = unit {
        let place = unit.place();
        needs[place] = needs[place].after(taken, waited);
    }
}

impl Needs {
    /// The needs of no steps.
    pub(crate) fn none() -> Needs
        ensures { result ≡ nothing_needed }
    {
        let nothing = Need { peak: 0, stalls: 0 };
        Needs {
            stations: [nothing; 6],
            units: [nothing; 5],
            buses: nothing,
            width: nothing,
            branch: 0,
            operand: 0,
            address: 0,
            memory: 0,
            last_issue: 0,
            total: 0,
        }
    }

    /// The need of a part.
    pub fn need(&self, part: Part) -> Need
        ensures { result ≡ need_of self.now part }
    {
        match part {
            Part::Stations(pool) => self.stations[pool.place()],
            Part::Units(unit) => self.units[unit.place()],
            Part::Buses => self.buses,
            Part::Width => self.width,
        }
    }

    /// The cycles after the last issue.
    pub fn drain(&self) -> u64
        ensures { result ≡ self.now.total - self.now.last_issue }
    {
        self.total.saturating_sub(self.last_issue)
    }

    /// True if the count of a part may be that of the other configuration.
    fn allows(&self, part: Part, own: &Config, other: &Config) -> bool
        ensures { result ≡ allows self.now own.now other.now part }
    {
        let need = self.need(part);
        let count = part.count(other);
        part.count(own) == count || (need.stalls == 0 && need.peak <= count)
    }

    /// True if these needs, of a run on its own configuration, show that each step of the run has the same times on the
    /// other configuration. Then the run's total there is `total`.
    pub fn suffice(&self, own: &Config, other: &Config) -> bool
        ensures { result ≡ suffice self.now own.now other.now }
    {
        Part::ALL.iter().all(|part| self.allows(*part, own, other))
            && UnitId::ALL.iter().all(|unit| {
                own.latency(*unit) == other.latency(*unit)
                    || self.need(Part::Units(*unit)).peak == 0
            })
    }

    /// Notes a step with its waits and with what it takes.
    pub(crate) fn note(&mut self, facts: &Facts, waits: &Waits, taken: &Taken, at: &Times)
        requires needs { IsWithin (2 ^ 63) self.old }
        requires waits { AreWithin (2 ^ 62) waits.now }
        ensures { self.new ≡ needs_after facts.now waits.now taken.now at.now self.old }
    {
        self.buses = self.buses.after(taken.bus, waits.bus);
        self.width = self.width.after(taken.width, waits.width);
        self.branch = waits.branch + self.branch;
        self.operand = waits.operand + self.operand;
        self.address = waits.address + self.address;
        self.memory = waits.memory + self.memory;
        self.last_issue = at.issue;
        self.total = at.end.max(self.total);
        note_station(&mut self.stations, facts.pool, taken.station, waits.station);
        note_unit(&mut self.units, facts.unit, taken.unit, waits.unit);
    }
}
