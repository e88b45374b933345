//! The entries of a study's lists, as they are shown. A study has rows and no lists, so a list's entries are those of
//! the rows.

ghost use Rattle.std.specs.Prelude.{◌≡◌, IfOk};
ghost use Rattle.std.specs.List.{list_any};
ghost use Rattle.tomex_compare.specs.Groups.{entries_of, shows_same};

use std::alloc::{AllocError, Global};
use tomex_config::{Config, Part};

/// True if two configurations show the same entry in a part's list: a unit option's price isn't shown.
pub fn shows_same(a: &Config, b: &Config, part: Part) -> bool
    ensures { result ≡ shows_same part a.now b.now }
{
    match part {
        Part::Units(unit) => {
            let (first, second) = (a.option(unit), b.option(unit));
            first.units == second.units && first.latency == second.latency
        }
        part => part.count(a) == part.count(b),
    }
}

/// True if one of these configurations shows another one's entry.
fn is_shown(entries: &[Config], config: &Config, part: Part) -> bool
    ensures { result ≡ list_any (λ e. shows_same part e config.now) entries.now }
{
    for entry in entries {
        if shows_same(entry, config, part) {
            return true;
        }
    }
    false
}

/// The entries of a part's list, each by the first configuration that has it, in their order.
pub fn entries_of(heap: Global, rows: &[Config], part: Part) -> Result<Vec<Config>, AllocError>
    ensures { IfOk result (λ v. v.items ≡ entries_of part rows.now) }
{
    let mut entries = Vec::new(heap);
    for config in rows {
        if !is_shown(entries.as_slice(), config, part) {
            entries.push(*config)?;
        }
    }
    Ok(entries)
}
