//! Machines on which tests run programs.

use std::test::Fail;
use tomex_config::{Config, UnitOption};

/// One unit of latency 1, at no price.
pub const PLAIN: UnitOption = UnitOption {
    units: 1,
    latency: 1,
    price: 0,
};

/// One unit of this latency, at no price.
pub fn unit(latency: u8) -> UnitOption {
    UnitOption { latency, ..PLAIN }
}

/// The configuration of these parts. Fails if one of them is out of the limits.
pub fn config_of(
    stations: [u8; 6],
    units: [UnitOption; 5],
    buses: u8,
    width: u8,
) -> Result<Config, Fail> {
    Ok(Config::new(stations, units, buses, width).ok_or("no configuration")?)
}

/// The configuration of these stations and of one unit of each of these latencies, with this number
/// of buses, with an issue width of 1.
pub fn one_unit_each(stations: [u8; 6], latencies: [u8; 5], buses: u8) -> Result<Config, Fail> {
    config_of(stations, latencies.map(unit), buses, 1)
}
