//! A price of a study.

ghost use Rattle.std.specs.Prelude.{◌≡◌, ◌≤◌, ◌<◌, ◌^◌, Some};
ghost use Rattle.tomex_prices.specs.Price.{name_of_price, payments, amount};

use std::fmt;
use tomex_config::{Config, Prices, UnitOption, same_option};
use tomex_rvdec::{PoolId, UnitId};

/// The greatest price that a study may state.
pub const GREATEST_PRICE: u64 = 1_000_000;

/// A price of a study: that of a station of a pool, of an option for a kind of unit, of a bus, or of the width, for
/// each instruction that may issue in a cycle.
#[derive(Clone, Copy, PartialEq, Eq)]
pub enum Price {
    Station(PoolId),
    Choice(UnitId, UnitOption),
    Bus,
    Width,
}

impl Price {
    /// The stated price.
    pub fn amount(self, prices: &Prices) -> u64
        ensures price { result ≡ amount self prices.now }
        ensures few { result < 2 ^ 32 }
    {
        match self {
            Price::Station(pool) => u64::from(prices.station(pool)),
            Price::Choice(_, option) => u64::from(option.price),
            Price::Bus => u64::from(prices.bus()),
            Price::Width => u64::from(prices.width()),
        }
    }

    /// How often a configuration pays it.
    pub fn payments(self, config: &Config) -> u64
        ensures payments { result ≡ payments self config.now }
        ensures few { result ≤ 16 }
    {
        match self {
            Price::Station(pool) => u64::from(config.stations(pool)),
            Price::Choice(unit, option) => {
                if same_option(config.option(unit), option) {
                    1
                } else {
                    0
                }
            }
            Price::Bus => u64::from(config.buses()),
            Price::Width => u64::from(config.width()),
        }
    }
}

/// Its name, as `mul`, `mul:1@8`, `bus` and `width`: an option is shown by its units and its latency.
impl fmt::Display for Price {
    ghost output = { λ price. Some (name_of_price price) };

    fn fmt<W: fmt::Write>(&self, f: &mut fmt::Formatter<W>) -> fmt::Result {
        match *self {
            Price::Station(pool) => write!(f, "{pool}"),
            Price::Choice(unit, option) => {
                let (units, latency) = (option.units, option.latency);
                write!(f, "{unit}:{units}@{latency}")
            }
            Price::Bus => write!(f, "bus"),
            Price::Width => write!(f, "width"),
        }
    }
}
