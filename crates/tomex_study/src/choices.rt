//! The choices of a list, those that are on the front, and the others.

ghost use Rattle.std.specs.Prelude.{◌≡◌, IfOk};
ghost use Rattle.std.specs.List.{filter, list_any};
ghost use Rattle.tomex_config.specs.Parts.{is_like};
ghost use Rattle.tomex_study.specs.Choices.{choices, front_choices, has_use, is_used, unused};
ghost use Rattle.tomex_config.specs.Parts.{firsts};

use crate::surveyed::Surveyed;
use std::alloc::{AllocError, Allocator, Global};
use tomex_config::{Config, Likeness, Part, same_entry};

/// True if a row of the front has a configuration's entry in a part's list.
fn is_used<A: Allocator>(surveyed: &Surveyed<'_, A>, part: Part, config: &Config) -> bool
    ensures { result ≡ is_used surveyed.now part config.now }
{
    for row in surveyed.front() {
        if same_entry(surveyed.config(row.row), config, part) {
            return true;
        }
    }
    false
}

/// The choices of a part's list that some row of the front has, or that none has: for each of them its first
/// configuration, in the order of the rows.
fn choices_used<A: Allocator>(
    heap: Global,
    surveyed: &Surveyed<'_, A>,
    part: Part,
    used: bool,
) -> Result<Vec<Config>, AllocError>
    ensures { IfOk result (λ v. v.items ≡ filter (has_use surveyed.now part used) (choices surveyed.now part)) }
{
    let all = Likeness::Entry(part).firsts(heap, surveyed.study().rows())?;
    let mut some = Vec::new(heap);
    for config in &all {
        if is_used(surveyed, part, config) == used {
            some.push(*config)?;
        }
    }
    Ok(some)
}

/// The choices of a part's list that some row of the front has, in the order of the first rows that have them: for
/// each of them its first configuration.
#[tactic(auto, unfolding(crate::specs::Choices::front_choices))]
pub fn front_choices<A: Allocator>(
    heap: Global,
    surveyed: &Surveyed<'_, A>,
    part: Part,
) -> Result<Vec<Config>, AllocError>
    ensures { IfOk result (λ v. v.items ≡ front_choices surveyed.now part) }
{
    choices_used(heap, surveyed, part, true)
}

/// The choices that no row of the front has, likewise.
#[tactic(auto, unfolding(crate::specs::Choices::unused))]
pub fn unused<A: Allocator>(
    heap: Global,
    surveyed: &Surveyed<'_, A>,
    part: Part,
) -> Result<Vec<Config>, AllocError>
    ensures { IfOk result (λ v. v.items ≡ unused surveyed.now part) }
{
    choices_used(heap, surveyed, part, false)
}
