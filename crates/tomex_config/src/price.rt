//! The cost of a configuration.

ghost use Rattle.std.specs.Prelude.{◌≡◌, ◌≤◌, ◌*◌, true};
ghost use Rattle.std.specs.List.{list_all};
ghost use Rattle.tomex_config.specs.Configuration.{stations_of, option_of};
ghost use Rattle.tomex_config.specs.Cost.{IsPriceList, is_price, price_of, stations_cost, options_cost, cost_of};

use crate::config::Config;
use std::marker::Model;
use tomex_rvdec::{PoolId, UnitId};

/// The price of one reservation station of each pool, of one common data bus, and of each
/// instruction that may issue in a cycle: 0 to 1,000,000 each.
#[derive(Clone, Copy, PartialEq, Eq)]
pub struct Prices {
    stations: [u32; 6],
    bus: u32,
    width: u32,
}

impl Model for Prices {
    ghost use Rattle.tomex_config.specs.Cost.{PriceList, IsPriceList};

    ghost Value = { PriceList };

    ghost view = { λ p. record { stations = p.stations; bus = p.bus; width = p.width } };

    ghost inverse = { λ p. record { stations = p.stations; bus = p.bus; width = p.width } };

    ghost invariant = { λ p. IsPriceList (record { stations = p.stations; bus = p.bus; width = p.width }) };
}

impl Prices {
    /// These prices, the stations' in the order of `PoolId::ALL`.
    #[tactic(auto, using(crate::proofs::Ranges::each_passes))]
    pub fn new(stations: [u32; 6], bus: u32, width: u32) -> Prices
        requires stations { list_all is_price stations ≡ true }
        requires bus { is_price bus ≡ true }
        requires width { is_price width ≡ true }
        ensures { result ≡ record { stations = stations; bus = bus; width = width } }
    {
        Prices {
            stations,
            bus,
            width,
        }
    }

    /// A law: there is a price for each pool, and no price is above 1,000,000.
    pub fn keeps_limits(&self)
        ensures { IsPriceList self.now }
    {
        let _bus = self.bus;
    }

    /// The price of a station of a pool.
    pub fn station(&self, pool: PoolId) -> u32
        ensures price { result ≡ price_of self.now pool }
        ensures range { result ≤ 1000000 }
    {
        self.stations[pool.place()]
    }

    /// The price of a bus.
    pub fn bus(&self) -> u32
        ensures price { result ≡ self.now.bus }
        ensures range { result ≤ 1000000 }
    {
        self.bus
    }

    /// The price of the width, for each instruction that may issue in a cycle.
    pub fn width(&self) -> u32
        ensures price { result ≡ self.now.width }
        ensures range { result ≤ 1000000 }
    {
        self.width
    }
}

/// The cost of one pool's stations.
fn pool_cost(config: &Config, prices: &Prices, pool: PoolId) -> u64
    ensures cost { result ≡ stations_of config.now pool * price_of prices.now pool }
    ensures bound { result ≤ 16000000 }
{
    u64::from(config.stations(pool)) * u64::from(prices.station(pool))
}

/// The cost of all stations.
fn stations_cost(config: &Config, prices: &Prices) -> u64
    ensures cost { result ≡ stations_cost config.now prices.now }
    ensures bound { result ≤ 96000000 }
{
    let mut total = 0;
    for pool in PoolId::ALL {
        total += pool_cost(config, prices, pool);
    }
    total
}

/// The cost of the chosen option for one kind of unit.
fn option_cost(config: &Config, unit: UnitId) -> u64
    ensures cost { result ≡ (option_of config.now unit).price }
    ensures bound { result ≤ 1000000 }
{
    u64::from(config.option(unit).price)
}

/// The cost of the chosen options.
fn options_cost(config: &Config) -> u64
    ensures cost { result ≡ options_cost config.now }
    ensures bound { result ≤ 5000000 }
{
    let mut total = 0;
    for unit in UnitId::ALL {
        total += option_cost(config, unit);
    }
    total
}

/// The cost of a configuration: its stations, buses and width at these prices, and its options at
/// their own.
pub fn cost(config: &Config, prices: &Prices) -> u64
    ensures cost { result ≡ cost_of config.now prices.now }
    ensures bound { result ≤ 113000000 }
{
    let buses = u64::from(config.buses()) * u64::from(prices.bus());
    let width = u64::from(config.width()) * u64::from(prices.width());
    stations_cost(config, prices) + options_cost(config) + buses + width
}
