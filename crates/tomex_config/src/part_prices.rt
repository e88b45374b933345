//! Prices and costs, part by part.

ghost use Rattle.std.specs.Prelude.{◌≡◌, ◌*◌};
ghost use Rattle.tomex_config.specs.PartPrices.{cost_of_part, price_of_part};

use crate::config::Config;
use crate::part::Part;
use crate::price::Prices;

/// The price of one more of a part; a unit option has none.
pub fn price_of_part(prices: &Prices, part: Part) -> u64
    ensures { result ≡ price_of_part prices.now part }
{
    match part {
        Part::Stations(pool) => u64::from(prices.station(pool)),
        Part::Units(_) => 0,
        Part::Buses => u64::from(prices.bus()),
        Part::Width => u64::from(prices.width()),
    }
}

/// The cost of `count` of a part.
fn cost_of_count(count: u8, price: u32) -> u64
    ensures { result ≡ count * price }
{
    u64::from(count) * u64::from(price)
}

/// The cost of a configuration's entry in a part's list.
pub fn cost_of_part(prices: &Prices, config: &Config, part: Part) -> u64
    ensures { result ≡ cost_of_part prices.now config.now part }
{
    match part {
        Part::Stations(pool) => cost_of_count(config.stations(pool), prices.station(pool)),
        Part::Units(unit) => u64::from(config.option(unit).price),
        Part::Buses => cost_of_count(config.buses(), prices.bus()),
        Part::Width => cost_of_count(config.width(), prices.width()),
    }
}
