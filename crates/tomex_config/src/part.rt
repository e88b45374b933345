//! The parts of a machine: a study has a list of entries for each.

ghost use Rattle.std.specs.Prelude.{◌≡◌, ◌≤◌, true};
ghost use Rattle.tomex_config.specs.Configuration.{is_between};
ghost use Rattle.tomex_config.specs.Parts.{count_of, latency_in, most_of, same_entry, with_count};

use crate::config::{Config, UnitOption, same_option};
use tomex_rvdec::{PoolId, UnitId};

/// A part of a machine whose count a configuration gives: the stations of a pool, the units of a kind, the common data
/// buses, and how many instructions issue in a cycle.
#[derive(Clone, Copy, PartialEq, Eq)]
pub enum Part {
    Stations(PoolId),
    Units(UnitId),
    Buses,
    Width,
}

impl Part {
    /// All parts, in the order in which reports list them.
    pub const ALL: [Part; 13] = [
        Part::Stations(PoolId::Alu),
        Part::Stations(PoolId::Mul),
        Part::Stations(PoolId::Div),
        Part::Stations(PoolId::Load),
        Part::Stations(PoolId::Store),
        Part::Stations(PoolId::Bru),
        Part::Units(UnitId::Alu),
        Part::Units(UnitId::Mul),
        Part::Units(UnitId::Div),
        Part::Units(UnitId::Mem),
        Part::Units(UnitId::Bru),
        Part::Buses,
        Part::Width,
    ];

    /// The number of these that a configuration has.
    pub fn count(self, config: &Config) -> u64
        ensures { result ≡ count_of config.now self }
    {
        match self {
            Part::Stations(pool) => u64::from(config.stations(pool)),
            Part::Units(unit) => u64::from(config.units(unit)),
            Part::Buses => u64::from(config.buses()),
            Part::Width => u64::from(config.width()),
        }
    }

    /// The most of these that a configuration can have.
    pub fn most(self) -> u8
        ensures value { result ≡ most_of self }
        ensures range { (1 ≤ result) × (result ≤ 16) }
    {
        match self {
            Part::Stations(_) => 16,
            Part::Units(UnitId::Bru) => 1,
            Part::Units(_) | Part::Buses => 8,
            Part::Width => 4,
        }
    }

    /// The latency of a configuration's units of this kind, in cycles; 0 for other parts.
    pub fn latency(self, config: &Config) -> u8
        ensures { result ≡ latency_in self config.now }
    {
        match self {
            Part::Units(unit) => config.latency(unit),
            _ => 0,
        }
    }
}

/// True if two configurations have the same entry in a part's list.
pub fn same_entry(a: &Config, b: &Config, part: Part) -> bool
    ensures { result ≡ same_entry a.now b.now part }
{
    match part {
        Part::Units(unit) => same_option(a.option(unit), b.option(unit)),
        part => part.count(a) == part.count(b),
    }
}

/// A configuration with another number of a part. The latency and the price of units stay.
pub fn with_count(config: &Config, part: Part, count: u8) -> Config
    requires { is_between 1 (most_of part) count ≡ true }
    ensures { result ≡ with_count config.now part count }
{
    match part {
        Part::Stations(pool) => config.with_stations(pool, count),
        Part::Units(unit) => {
            let option = config.option(unit);
            config.with_option(
                unit,
                UnitOption {
                    units: count,
                    ..option
                },
            )
        }
        Part::Buses => config.with_buses(count),
        Part::Width => config.with_width(count),
    }
}
