//! Groups of rows: all, those on the builds' own fronts, and those with each entry of a list.

ghost use Rattle.std.specs.Prelude.{◌≡◌, ◌<◌, ◌++◌, List, codes, length, map, All, IfOk, OnOk};
ghost use Rattle.std.specs.List.{flat_map};
ghost use Rattle.tomex_pareto.specs.declared.front_row.FrontRow.{FrontRow};
ghost use Rattle.tomex_config.specs.Parts.{all_parts};
ghost use Rattle.tomex_compare.specs.Builds.{IsBuild};
ghost use Rattle.tomex_compare.specs.Groups.{AreMarks, entry_group, front_group, front_groups, group, groups_from};
ghost use Rattle.tomex_compare.specs.Groups.{list_groups, on_front, with_entry};

use crate::build::Build;
use crate::entries::{entries_of, shows_same};
use crate::fronts::on_own_front;
use crate::pairs::Pair;
use std::alloc::{AllocError, Allocator, Global};
use std::marker::Model;
use tomex_config::{Config, Part};
use tomex_layout::{push_entry, push_name_of_list};
use tomex_study::Surveyed;

/// Some rows, by ratio, then number, and what they have in common.
#[derive(Drop)]
pub struct Group {
    /// The columns `part` and `value`.
    pub part: String,
    pub value: String,
    pub pairs: Vec<Pair>,
}

impl Model for Group {
    ghost use Rattle.std.specs.Prelude.{string_bytes};
    ghost use Rattle.tomex_compare.specs.Groups.{RowGroup};

    ghost Value = { RowGroup };

    ghost view = { λ g. record { part = string_bytes g.part; value = string_bytes g.value; pairs = g.pairs.items } };
}

/// The group of all rows.
fn all_rows(heap: Global, pairs: &[Pair]) -> Result<Group, AllocError>
    ensures { IfOk result (λ g. g ≡ group (codes "all") (codes "-") pairs.now) }
{
    Ok(Group {
        part: format!(in heap; "all")?,
        value: format!(in heap; "-")?,
        pairs: pairs.to_vec(heap)?,
    })
}

/// The pairs of the rows that are marked.
fn marked(heap: Global, pairs: &[Pair], marks: &[bool]) -> Result<Vec<Pair>, AllocError>
    requires { All (λ p. p.row < length marks.now) pairs.now }
    ensures { IfOk result (λ v. (front : List FrontRow) → AreMarks front (length marks.now) marks.now
        → v.items ≡ on_front front pairs.now) }
{
    let mut kept = Vec::new(heap);
    for pair in pairs {
        if marks[pair.row] {
            kept.push(*pair)?;
        }
    }
    Ok(kept)
}

/// The group of the rows of a front.
fn front_group(
    heap: Global,
    value: &str,
    pairs: &[Pair],
    marks: &[bool],
) -> Result<Group, AllocError>
    requires { All (λ p. p.row < length marks.now) pairs.now }
    ensures { IfOk result (λ g. (front : List FrontRow) → AreMarks front (length marks.now) marks.now
        → g ≡ front_group value.now (on_front front pairs.now)) }
{
    Ok(Group {
        part: format!(in heap; "front")?,
        value: format!(in heap; "{value}")?,
        pairs: marked(heap, pairs, marks)?,
    })
}

/// Adds the groups of the rows on the builds' own fronts: of each, and of both.
fn push_fronts<A: Allocator>(
    groups: &mut Vec<Group>,
    heap: Global,
    surveyed: &Surveyed<'_, A>,
    old: &Build<'_, A>,
    new: &Build<'_, A>,
    pairs: &[Pair],
) -> Result<(), AllocError>
    requires old { IsBuild surveyed.now old.now.place old.now.program.now }
    requires new { IsBuild surveyed.now new.now.place new.now.program.now }
    requires pairs { All (λ p. p.row < length surveyed.now.rows) pairs.now }
    ensures { OnOk result (groups.new.items ≡ groups.old.items
        ++ front_groups surveyed.now old.now.program.now new.now.program.now pairs.now) }
{
    let on_old = on_own_front(heap, surveyed, old)?;
    let on_new = on_own_front(heap, surveyed, new)?;
    let of_old = front_group(heap, old.program.name(), pairs, on_old.as_slice())?;
    let of_new = front_group(heap, new.program.name(), pairs, on_new.as_slice())?;
    let of_both = front_group(heap, "both", of_old.pairs.as_slice(), on_new.as_slice())?;
    groups.push(of_old)?;
    groups.push(of_new)?;
    groups.push(of_both)?;
    Ok(())
}

/// The pairs of the rows that show a configuration's entry in a part's list.
fn with_entry<A: Allocator>(
    heap: Global,
    surveyed: &Surveyed<'_, A>,
    pairs: &[Pair],
    part: Part,
    entry: &Config,
) -> Result<Vec<Pair>, AllocError>
    requires { All (λ p. p.row < length surveyed.now.rows) pairs.now }
    ensures { IfOk result (λ v. v.items ≡ with_entry surveyed.now pairs.now part entry.now) }
{
    let mut kept = Vec::new(heap);
    for pair in pairs {
        if shows_same(entry, surveyed.config(pair.row), part) {
            kept.push(*pair)?;
        }
    }
    Ok(kept)
}

/// The group of the rows that show a configuration's entry in a part's list.
#[tactic(auto, unfolding(crate::specs::Groups::entry_group))]
fn entry_group<A: Allocator>(
    heap: Global,
    surveyed: &Surveyed<'_, A>,
    pairs: &[Pair],
    part: Part,
    entry: &Config,
) -> Result<Group, AllocError>
    requires { All (λ p. p.row < length surveyed.now.rows) pairs.now }
    ensures { IfOk result (λ g. g ≡ entry_group surveyed.now pairs.now part entry.now) }
{
    let mut name = String::new(heap);
    push_name_of_list(&mut name, part)?;
    let mut value = String::new(heap);
    push_entry(&mut value, entry, part)?;
    Ok(Group {
        part: name,
        value,
        pairs: with_entry(heap, surveyed, pairs, part, entry)?,
    })
}

/// Adds a group for each of these entries.
fn push_entries<A: Allocator>(
    groups: &mut Vec<Group>,
    heap: Global,
    surveyed: &Surveyed<'_, A>,
    pairs: &[Pair],
    part: Part,
    entries: &[Config],
) -> Result<(), AllocError>
    requires { All (λ p. p.row < length surveyed.now.rows) pairs.now }
    ensures { OnOk result (groups.new.items
        ≡ groups.old.items ++ map (entry_group surveyed.now pairs.now part) entries.now) }
{
    for entry in entries {
        groups.push(entry_group(heap, surveyed, pairs, part, entry)?)?;
    }
    Ok(())
}

/// Adds the groups of a part's list, if it has several entries.
#[tactic(auto, unfolding(crate::specs::Groups::list_groups))]
fn push_list<A: Allocator>(
    groups: &mut Vec<Group>,
    heap: Global,
    surveyed: &Surveyed<'_, A>,
    pairs: &[Pair],
    part: Part,
) -> Result<(), AllocError>
    requires { All (λ p. p.row < length surveyed.now.rows) pairs.now }
    ensures { OnOk result (groups.new.items ≡ groups.old.items ++ list_groups surveyed.now pairs.now part) }
{
    let entries = entries_of(heap, surveyed.study().rows(), part)?;
    if entries.len() > 1 {
        push_entries(groups, heap, surveyed, pairs, part, entries.as_slice())?;
    }
    Ok(())
}

/// Adds the groups of all lists.
fn push_lists<A: Allocator>(
    groups: &mut Vec<Group>,
    heap: Global,
    surveyed: &Surveyed<'_, A>,
    pairs: &[Pair],
) -> Result<(), AllocError>
    requires { All (λ p. p.row < length surveyed.now.rows) pairs.now }
    ensures { OnOk result (groups.new.items
        ≡ groups.old.items ++ flat_map (list_groups surveyed.now pairs.now) all_parts) }
{
    for part in Part::ALL {
        push_list(groups, heap, surveyed, pairs, part)?;
    }
    Ok(())
}

/// The groups of rows of a study: all, those on the builds' own fronts, and those with each entry of a list.
#[tactic(auto, unfolding(crate::specs::Groups::groups_from))]
pub fn groups_of<A: Allocator>(
    heap: Global,
    surveyed: &Surveyed<'_, A>,
    old: &Build<'_, A>,
    new: &Build<'_, A>,
    pairs: &[Pair],
) -> Result<Vec<Group>, AllocError>
    requires old { IsBuild surveyed.now old.now.place old.now.program.now }
    requires new { IsBuild surveyed.now new.now.place new.now.program.now }
    requires pairs { All (λ p. p.row < length surveyed.now.rows) pairs.now }
    ensures { IfOk result (λ v. v.items
        ≡ groups_from surveyed.now old.now.program.now new.now.program.now pairs.now) }
{
    let mut groups = Vec::new(heap);
    groups.push(all_rows(heap, pairs)?)?;
    push_fronts(&mut groups, heap, surveyed, old, new, pairs)?;
    push_lists(&mut groups, heap, surveyed, pairs)?;
    Ok(groups)
}
