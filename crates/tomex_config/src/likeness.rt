//! What two configurations have in common in a part's list.

ghost use Rattle.std.specs.Prelude.{◌≡◌, IfOk};
ghost use Rattle.std.specs.List.{list_any};
ghost use Rattle.tomex_config.specs.Parts.{firsts, is_like};

use crate::config::Config;
use crate::part::{Part, same_entry};
use std::alloc::{AllocError, Allocator, Global};

/// What two configurations have in common.
#[derive(Clone, Copy)]
pub enum Likeness {
    /// The entry in a part's list.
    Entry(Part),
    /// Its latency.
    Latency(Part),
}

impl Likeness {
    /// True if two configurations have it in common.
    pub fn holds(self, a: &Config, b: &Config) -> bool
        ensures { result ≡ is_like self a.now b.now }
    {
        match self {
            Likeness::Entry(part) => same_entry(a, b, part),
            Likeness::Latency(part) => part.latency(a) == part.latency(b),
        }
    }

    /// Of these configurations, in their order, each that has it in common with no earlier one. So with
    /// [`Likeness::Entry`] they have all entries of a part's list, each once.
    pub fn firsts(self, heap: Global, rows: &[Config]) -> Result<Vec<Config>, AllocError>
        ensures { IfOk result (λ v. v.items ≡ firsts (is_like self) rows.now) }
    {
        let mut firsts = Vec::new(heap);
        for config in rows {
            if !self.is_in(firsts.as_slice(), config) {
                firsts.push(*config)?;
            }
        }
        Ok(firsts)
    }

    /// True if one of these configurations has it in common with another one.
    fn is_in(self, configs: &[Config], other: &Config) -> bool
        ensures { result ≡ list_any (λ c. is_like self c other.now) configs.now }
    {
        for config in configs {
            if self.holds(config, other) {
                return true;
            }
        }
        false
    }
}
