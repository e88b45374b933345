//! The document of a study, read from its bytes.

ghost use Rattle.std.specs.Prelude.{◌≡◌, ◌≤◌, length};
ghost use Rattle.std.specs.List.{list_any};
ghost use Rattle.toml.specs.View.{table_view, items_view};
ghost use Rattle.tomex_values.specs.Readings.{Gives};
ghost use Rattle.tomex_document.specs.Document.{is_wide, members_of, outline_from, outline_of, document_of};

mod axes;
mod entry;
mod laws;
mod prices;
mod programs;
mod units;
mod watch;

use axes::axes_of;
pub use entry::Entry;
pub use laws::documents_have_a_grid;
use prices::prices_of;
use programs::{program_tables, programs_of};
use std::alloc::{Allocator, Global};
use std::marker::Model;
use tomex_config::{Axes, Prices};
use tomex_values::{DocumentError, Key, Place, has_key, known_keys, table_at};
use toml::{Table, Value};

/// A study before its programs' files are read.
#[derive(Drop)]
pub struct Outline<A: Allocator = Global> {
    pub programs: Vec<Entry<A>, A>,
    pub prices: Prices,
    pub axes: Axes<A>,
    pub wide: bool,
}

impl<A: Allocator> Model for Outline<A> {
    ghost use Rattle.tomex_config.specs.Grid.{lists_of};
    ghost use Rattle.tomex_document.specs.Document.{Document};

    ghost Value = { Document };

    ghost view = { λ o. record {
      programs = o.programs.items;
      prices = o.prices;
      axes = lists_of o.axes;
      wide = o.wide;
    } };
}

/// The document that TOML gives for the bytes.
#[tactic(auto, unfolding(crate::specs::Document::members_of))]
fn members_of(heap: Global, study: &[u8]) -> Result<Table, DocumentError>
    ensures { Gives (λ t. table_view t) result (members_of study.now) }
{
    match toml::table_from_slice(heap, study) {
        Ok(table) => Ok(table),
        Err(error) => {
            if error.is_memory() {
                Err(DocumentError::Memory)
            } else {
                Err(DocumentError::Syntax)
            }
        }
    }
}

/// True if the document gives a program's weight.
fn is_weighed<A: Allocator>(programs: &[Entry<A>]) -> bool
    ensures { result ≡ list_any (λ entry. entry.weighed) programs.now }
{
    programs.iter().any(|entry| entry.gives_weight())
}

/// True if the document gives a program's weight, the price of the width, or widths.
fn is_wide<A: Allocator>(programs: &[Entry<A>], prices: &Table, axes: &Table) -> bool
    ensures { result ≡ is_wide programs.now (table_view prices.now) (table_view axes.now) }
{
    is_weighed(programs) || has_key(prices, Key::Width) || has_key(axes, Key::Width)
}

/// The outline that these tables give, place by place.
fn outline_from<A: Allocator + Clone>(
    alloc: A,
    tables: &[Value],
    price_table: &Table,
    axis_table: &Table,
    unit: &Table,
) -> Result<Outline<A>, DocumentError>
    requires { length tables.now ≤ 8 }
    ensures { Gives (λ o. o) result
        (outline_from (items_view tables.now) (table_view price_table.now) (table_view axis_table.now)
        (table_view unit.now)) }
{
    let programs = programs_of(alloc.clone()?, tables)?;
    let prices = prices_of(price_table)?;
    let axes = axes_of(alloc, axis_table, unit)?;
    let wide = is_wide(programs.as_slice(), price_table, axis_table);
    if axes.is_too_large() {
        Err(DocumentError::TooMany)
    } else {
        Ok(Outline {
            programs,
            prices,
            axes,
            wide,
        })
    }
}

fn outline_of<A: Allocator + Clone>(
    alloc: A,
    heap: Global,
    top: &Table,
) -> Result<Outline<A>, DocumentError>
    ensures { Gives (λ o. o) result (outline_of (table_view top.now)) }
{
    let keys = [Key::Program, Key::Prices, Key::Axes, Key::Unit];
    known_keys(top, Place::Top, keys.as_slice())?;
    let tables = program_tables(top)?;
    let empty = Table::new(heap);
    let price_table = table_at(top, Place::Top, Key::Prices, &empty)?;
    let axis_table = table_at(top, Place::Top, Key::Axes, &empty)?;
    let unit = table_at(top, Place::Top, Key::Unit, &empty)?;
    outline_from(alloc, tables, price_table, axis_table, unit)
}

/// The outline that the bytes of a study give, or the first test of the document that they fail.
#[tactic(auto, unfolding(crate::specs::Document::document_of))]
pub fn document_of<A: Allocator + Clone>(
    alloc: A,
    heap: Global,
    study: &[u8],
) -> Result<Outline<A>, DocumentError>
    ensures { Gives (λ o. o) result (document_of study.now) }
{
    let top = members_of(heap, study)?;
    outline_of(alloc, heap, &top)
}
