//! The rows of a study that differ from a machine in only one list.

ghost use Rattle.std.specs.Prelude.{◌≡◌, ◌<◌, ◌++◌, if◌then◌else◌, not, length, All, IfOk, OnOk};
ghost use Rattle.tomex_worth.specs.Changes.{changes_at, changes_of, differ_at};
ghost use Rattle.tomex_config.specs.Parts.{part_at, same_entry};

use std::alloc::{AllocError, Allocator, Global};
use tomex_config::{Config, Part, same_entry};
use tomex_pareto::FrontRow;
use tomex_study::Surveyed;

/// A row that differs from a machine in only one list.
#[derive(Clone, Copy, PartialEq, Eq)]
pub struct Change {
    /// The part of the list.
    pub part: Part,
    pub row: FrontRow,
}

/// True if two entries are as required: different at the place in question, the same elsewhere.
fn is_as_asked(is_place: bool, same: bool) -> bool
    ensures { result ≡ (if is_place then not same else same) }
{
    if is_place { !same } else { same }
}

/// True if two configurations differ in the list at this place, and in no other.
#[tactic(auto, unfolding(crate::specs::Changes::differ_at))]
fn differ_at(place: usize, a: &Config, b: &Config) -> bool
    ensures { result ≡ differ_at place a.now b.now }
{
    for (k, part) in Part::ALL.iter().enumerate() {
        if !is_as_asked(k == place, same_entry(a, b, *part)) {
            return false;
        }
    }
    true
}

/// Adds the rows that differ from a machine in the list at this place only.
#[tactic(auto, unfolding(crate::specs::Changes::changes_at))]
fn push_changes_at<A: Allocator>(
    changes: &mut Vec<Change>,
    surveyed: &Surveyed<'_, A>,
    own: FrontRow,
    place: usize,
) -> Result<(), AllocError>
    requires place { place < 13 }
    requires own { own.row < length surveyed.now.rows }
    ensures { OnOk result (changes.new.items ≡ changes.old.items ++ changes_at surveyed.now own place) }
{
    let (config, part) = (surveyed.config(own.row), Part::ALL[place]);
    for row in surveyed.rows() {
        if differ_at(place, config, surveyed.config(row.row)) {
            changes.push(Change { part, row: *row })?;
        }
    }
    Ok(())
}

/// The rows that differ from a machine in only one list: list by list, in the order of `Part::ALL`,
/// then by number.
#[tactic(auto, unfolding(crate::specs::Changes::changes_of))]
pub fn changes_of<A: Allocator>(
    heap: Global,
    surveyed: &Surveyed<'_, A>,
    own: FrontRow,
) -> Result<Vec<Change>, AllocError>
    requires { own.row < length surveyed.now.rows }
    ensures changes { IfOk result (λ v. v.items ≡ changes_of surveyed.now own) }
    ensures within { IfOk result (λ v. All (λ c. c.row.row < length surveyed.now.rows) v.items) }
{
    surveyed.keeps_limits();
    let mut changes = Vec::new(heap);
    for place in 0..Part::ALL.len() {
        push_changes_at(&mut changes, surveyed, own, place)?;
    }
    Ok(changes)
}
