//! The entries of a study's lists. A study has rows and no lists, so a list's entries are those of the rows.

ghost use Rattle.std.specs.Prelude.{◌++◌, codes, OnOk};
ghost use Rattle.std.specs.List.{flat_map};
ghost use Rattle.tomex_layout.specs.Growth.{Appends};
ghost use Rattle.tomex_page_tables.specs.Asked.{entries_text, facet_text};
ghost use Rattle.tomex_page_tables.specs.Asked.{prices_text};
ghost use Rattle.tomex_page_tables.specs.Pieces.{with_commas, some};

use crate::tables::{MOST_LINES, first_lines};
use std::alloc::{AllocError, Allocator, Global};
use std::fmt::Write;
use tomex_config::{Config, Likeness, Part, Prices, cost_of_part, price_of_part};
use tomex_layout::push_entry;
use tomex_study::Study;

/// The facet of an entry of a list that is shown.
#[derive(Clone, Copy)]
pub enum Facet {
    /// The entry itself.
    Choice,
    /// The entry's cost.
    Cost,
}

/// Adds the text of a configuration's entry in a part's list.
fn push_facet<A: Allocator>(
    text: &mut String<A>,
    prices: &Prices,
    facet: Facet,
    part: Part,
    config: &Config,
) -> Result<(), AllocError>
    ensures { OnOk result (Appends (facet_text prices.now facet part config.now) text.old text.new) }
{
    match facet {
        Facet::Choice => push_entry(text, config, part),
        Facet::Cost => {
            let cost = cost_of_part(prices, config, part);
            write!(text, "{cost}")
        }
    }
}

/// Adds the texts of several configurations' entries, each after a comma.
fn push_others<A: Allocator>(
    text: &mut String<A>,
    prices: &Prices,
    facet: Facet,
    part: Part,
    configs: &[Config],
) -> Result<(), AllocError>
    ensures { OnOk result (
        Appends (flat_map (λ c. codes ", " ++ facet_text prices.now facet part c) configs.now) text.old text.new) }
{
    for config in configs {
        text.push_str(", ")?;
        push_facet(text, prices, facet, part, config)?;
    }
    Ok(())
}

/// Adds the texts of several configurations' entries, with commas between them.
fn push_joined<A: Allocator>(
    text: &mut String<A>,
    prices: &Prices,
    facet: Facet,
    part: Part,
    configs: &[Config],
) -> Result<(), AllocError>
    ensures { OnOk result (Appends (with_commas (facet_text prices.now facet part) configs.now) text.old text.new) }
{
    let [first, rest @ ..] = configs else {
        return Ok(());
    };
    push_facet(text, prices, facet, part, first)?;
    push_others(text, prices, facet, part, rest)
}

/// Adds the texts of the first entries, with a sign if there are more.
#[tactic(auto, unfolding(crate::specs::Pieces::some))]
pub fn push_some<A: Allocator>(
    text: &mut String<A>,
    prices: &Prices,
    facet: Facet,
    part: Part,
    configs: &[Config],
) -> Result<(), AllocError>
    ensures { OnOk result (Appends (some (facet_text prices.now facet part) configs.now) text.old text.new) }
{
    push_joined(text, prices, facet, part, first_lines(configs))?;
    if configs.len() > MOST_LINES {
        text.push_str(" ..")?;
    }
    Ok(())
}

/// Adds the text of each entry of a part's list.
#[tactic(auto, unfolding(crate::specs::Asked::entries_text))]
pub fn push_entries<A: Allocator, B: Allocator>(
    text: &mut String<A>,
    heap: Global,
    study: &Study<B>,
    facet: Facet,
    part: Part,
) -> Result<(), AllocError>
    ensures { OnOk result (Appends (entries_text study.now facet part) text.old text.new) }
{
    let firsts = Likeness::Entry(part).firsts(heap, study.rows())?;
    push_some(text, &study.prices(), facet, part, firsts.as_slice())
}

/// Adds the prices of a part's list: each unit option has its own, any other list one for all.
pub fn push_prices<A: Allocator, B: Allocator>(
    text: &mut String<A>,
    heap: Global,
    study: &Study<B>,
    part: Part,
) -> Result<(), AllocError>
    ensures { OnOk result (Appends (prices_text study.now part) text.old text.new) }
{
    match part {
        Part::Units(unit) => push_entries(text, heap, study, Facet::Cost, Part::Units(unit)),
        part => {
            let price = price_of_part(&study.prices(), part);
            write!(text, "{price}")
        }
    }
}
