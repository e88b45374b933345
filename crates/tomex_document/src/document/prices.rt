//! The prices of stations, buses and widths.

ghost use Rattle.std.specs.Prelude.{◌≡◌, true, IfOk};
ghost use Rattle.toml.specs.View.{table_view};
ghost use Rattle.tomex_config.specs.Cost.{is_price};
ghost use Rattle.tomex_values.specs.Readings.{Reads};
ghost use Rattle.tomex_document.specs.Prices.{price_at, prices_of};

use tomex_config::Prices;
use tomex_values::{DocumentError, Key, Limits, Place, known_keys, number_at};
use toml::Table;

fn price_at(table: &Table, key: Key) -> Result<u32, DocumentError>
    ensures read { result ≡ price_at key (table_view table.now) }
    ensures lawful { IfOk result (λ n. is_price n ≡ true) }
{
    number_at(table, Place::Prices, key, Limits::between(0, 1_000_000), 0)
}

/// The prices of a table.
#[tactic(auto, unfolding(crate::specs::Prices::prices_of))]
pub fn prices_of(table: &Table) -> Result<Prices, DocumentError>
    ensures { Reads (λ p. p) result (prices_of (table_view table.now)) }
{
    let keys = [
        Key::Alu,
        Key::Mul,
        Key::Div,
        Key::Load,
        Key::Store,
        Key::Bru,
        Key::Bus,
        Key::Width,
    ];
    known_keys(table, Place::Prices, keys.as_slice())?;
    let alu = price_at(table, Key::Alu)?;
    let mul = price_at(table, Key::Mul)?;
    let div = price_at(table, Key::Div)?;
    let load = price_at(table, Key::Load)?;
    let store = price_at(table, Key::Store)?;
    let bru = price_at(table, Key::Bru)?;
    let bus = price_at(table, Key::Bus)?;
    let width = price_at(table, Key::Width)?;
    Ok(Prices::new([alu, mul, div, load, store, bru], bus, width))
}
