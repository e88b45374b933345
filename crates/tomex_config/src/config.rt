//! A configuration.

ghost use Rattle.std.specs.Prelude.{◌≡◌, ◌≤◌, ◌↔◌, true, IsSome, IfSome};
ghost use Rattle.std.specs.List.{list_all};
ghost use Rattle.tomex_config.specs.Configuration.{IsWithinLimits, is_between, is_option, most_units, plain};
ghost use Rattle.tomex_config.specs.Configuration.{config_of, stations_of, option_of, with_stations, with_option};
ghost use Rattle.tomex_config.specs.Configuration.{same_option, with_buses, with_width};

use std::marker::Model;
use tomex_rvdec::{PoolId, UnitId};

/// A choice for one kind of functional unit: how many there are, the cycles that each takes for an
/// operation, and the cost of the whole choice. It may be out of a configuration's limits.
#[derive(Clone, Copy, PartialEq, Eq)]
pub struct UnitOption {
    pub units: u8,
    pub latency: u8,
    pub price: u32,
}

/// True if two options have the same units, latency and price.
pub fn same_option(a: UnitOption, b: UnitOption) -> bool
    ensures { result ≡ same_option a b }
{
    a.units == b.units && a.latency == b.latency && a.price == b.price
}

/// A configuration within the limits: 1 to 16 reservation stations in each pool, 1 to 8 units of
/// each kind but only one branch unit, latencies of 1 to 64 cycles, 1 to 8 common data buses, and
/// an issue width of 1 to 4.
#[derive(Clone, Copy, PartialEq, Eq)]
pub struct Config {
    stations: [u8; 6],
    units: [UnitOption; 5],
    buses: u8,
    width: u8,
}

impl Model for Config {
    ghost use Rattle.tomex_config.specs.Configuration.{Configuration, IsWithinLimits, config_of};

    ghost Value = { Configuration };

    ghost view = { λ c. config_of c.stations c.units c.buses c.width };

    ghost inverse = { λ r. record { stations = r.stations; units = r.units; buses = r.buses; width = r.width } };

    ghost invariant = { λ c. IsWithinLimits (config_of c.stations c.units c.buses c.width) };
}

/// True if the option is within the limits and has at most `most` units.
pub(crate) fn is_option(option: UnitOption, most: u8) -> bool
    ensures { result ≡ is_option most option }
{
    1 <= option.units
        && option.units <= most
        && 1 <= option.latency
        && option.latency <= 64
        && option.price <= 1_000_000
}

impl Config {
    /// The configuration of these parts, in the order of `PoolId::ALL` and `UnitId::ALL`. `None` if
    /// one of them is out of the limits.
    pub fn new(stations: [u8; 6], units: [UnitOption; 5], buses: u8, width: u8) -> Option<Config>
        ensures lawful { IsSome result ↔ IsWithinLimits (config_of stations units buses width) }
        ensures parts { IfSome result (λ c. c ≡ config_of stations units buses width) }
    {
        let are_stations = stations.iter().all(|count| 1 <= *count && *count <= 16);
        let are_units = units.iter().all(|option| is_option(*option, 8));
        let are_rest = 1 <= buses && buses <= 8 && 1 <= width && width <= 4;
        if are_stations && are_units && units[4].units == 1 && are_rest {
            Some(Config {
                stations,
                units,
                buses,
                width,
            })
        } else {
            None
        }
    }

    /// The plain configuration: a station in each pool, a unit of latency 1 and price 0 of each
    /// kind, one bus, and a width of 1.
    pub(crate) fn plain() -> Config
        ensures { result ≡ plain }
    {
        let unit = UnitOption {
            units: 1,
            latency: 1,
            price: 0,
        };
        Config {
            stations: [1; 6],
            units: [unit; 5],
            buses: 1,
            width: 1,
        }
    }

    /// The configuration with `count` stations in a pool.
    pub fn with_stations(&self, pool: PoolId, count: u8) -> Config
        requires { is_between 1 16 count ≡ true }
        ensures { result ≡ with_stations pool self.now count }
    {
        let mut stations = self.stations;
        stations[pool.place()] = count;
        Config { stations, ..*self }
    }

    /// The configuration with this option for a kind of unit.
    pub fn with_option(&self, unit: UnitId, option: UnitOption) -> Config
        requires { is_option (most_units unit) option ≡ true }
        ensures { result ≡ with_option unit self.now option }
    {
        let mut units = self.units;
        units[unit.place()] = option;
        Config { units, ..*self }
    }

    /// The configuration with `count` buses.
    pub fn with_buses(&self, count: u8) -> Config
        requires { is_between 1 8 count ≡ true }
        ensures { result ≡ with_buses self.now count }
    {
        Config {
            buses: count,
            ..*self
        }
    }

    /// The configuration with this width.
    pub fn with_width(&self, width: u8) -> Config
        requires { is_between 1 4 width ≡ true }
        ensures { result ≡ with_width self.now width }
    {
        Config { width, ..*self }
    }

    /// A law: a configuration is within the limits.
    pub fn keeps_limits(&self)
        ensures { IsWithinLimits self.now }
    {
        let _buses = self.buses;
    }

    /// The number of reservation stations in a pool.
    pub fn stations(&self, pool: PoolId) -> u8
        ensures count { result ≡ stations_of self.now pool }
        ensures range { (1 ≤ result) × (result ≤ 16) }
    {
        self.stations[pool.place()]
    }

    /// The chosen option for a kind of unit.
    pub fn option(&self, unit: UnitId) -> UnitOption
        ensures chosen { result ≡ option_of self.now unit }
        ensures range { is_option (most_units unit) result ≡ true }
    {
        self.units[unit.place()]
    }

    /// The number of units of a kind.
    pub fn units(&self, unit: UnitId) -> u8
        ensures count { result ≡ (option_of self.now unit).units }
        ensures range { (1 ≤ result) × (result ≤ most_units unit) }
    {
        self.option(unit).units
    }

    /// The latency of a kind of unit, in cycles.
    pub fn latency(&self, unit: UnitId) -> u8
        ensures cycles { result ≡ (option_of self.now unit).latency }
        ensures range { (1 ≤ result) × (result ≤ 64) }
    {
        self.option(unit).latency
    }

    /// The number of common data buses.
    pub fn buses(&self) -> u8
        ensures count { result ≡ self.now.buses }
        ensures range { (1 ≤ result) × (result ≤ 8) }
    {
        self.buses
    }

    /// The most instructions that issue in a cycle.
    pub fn width(&self) -> u8
        ensures count { result ≡ self.now.width }
        ensures range { (1 ≤ result) × (result ≤ 4) }
    {
        self.width
    }
}
