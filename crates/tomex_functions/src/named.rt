//! What the functions of two runs take, by the names under which they are shown.

ghost use Rattle.std.specs.Prelude.{◌≡◌, ◌++◌, ◌∷◌, [], IfOk, IsPermutation, List, OnOk, Option, ℕ, map};
ghost use Rattle.std.specs.Prelude.{string_bytes, option_map, if◌then◌else◌};
ghost use Rattle.std.specs.BTreeMap.{IsOrdered, get_by_text};
ghost use Rattle.std.specs.Str.{bytes_eq};
ghost use Rattle.std.specs.String.{string_cmp};
ghost use Rattle.tomex_functions.specs.Shares.{Both, no_entries, same_name};
ghost use Rattle.tomex_functions.specs.ChangesKept.{AreInOrder, BothFit, IsNamed, after_share, change_at};
ghost use Rattle.tomex_functions.specs.ChangesKept.{name_of, named_change, order_of};

use crate::shares::{Change, Share, Side};
use std::alloc::{AllocError, Global};
use std::cmp::Ordering;
use std::collections::BTreeMap;

/// What the functions of each name take.
#[derive(Drop)]
pub struct Named {
    pub by_name: BTreeMap<String, Change>,
    /// What steps without a function take, if there are any.
    pub nameless: Option<Change>,
}

/// A name, and what its functions take.
#[derive(Drop)]
pub struct NamedChange {
    pub name: String,
    pub change: Change,
}

/// The order of a report: the greater difference first, then by the bytes of names.
fn order(a: &NamedChange, b: &NamedChange) -> Ordering
    ensures { result ≡ order_of a.now b.now }
{
    let (first, second) = (a.change.distance(), b.change.distance());
    second.cmp(&first).then(a.name.cmp(&b.name))
}

/// Puts names in the order of a report.
fn sort_changes(changes: &mut Vec<NamedChange>)
    ensures moved { IsPermutation changes.old.items changes.new.items }
    ensures order { AreInOrder changes.new.items }
{
    changes.sort_unstable_by(|a, b| order(a, b));
}

impl Named {
    /// Of no function.
    pub fn new(heap: Global) -> Named
        ensures { IsNamed no_entries result }
    {
        Named {
            by_name: BTreeMap::new(heap),
            nameless: None,
        }
    }

    /// Adds what a function with a name takes in a build's run.
    fn add_named(&mut self, name: String, side: Side, share: &Share) -> Result<(), AllocError>
        requires { BothFit (after_share side share.now (get_by_text self.old.by_name (string_bytes name))) }
        ensures names { OnOk result ((q : List ℕ) → get_by_text self.new.by_name q
            ≡ if bytes_eq q (string_bytes name)
            then Some (after_share side share.now (get_by_text self.old.by_name q))
            else get_by_text self.old.by_name q) }
        ensures nameless { OnOk result (self.new.nameless ≡ self.old.nameless) }
    {
        let change = self.by_name.entry(name)?.or_insert(Change::none());
        *change = change.with(side, share);
        Ok(())
    }

    /// Adds what one function takes in a build's run, which may have no name.
    pub fn add(&mut self, name: Option<String>, side: Side, share: &Share) -> Result<(), AllocError>
        requires { BothFit (after_share side share.now (change_at self.old (name_of name))) }
        ensures { OnOk result ((q : Option (List ℕ)) → change_at self.new q
            ≡ if same_name q (name_of name) then Some (after_share side share.now (change_at self.old q))
            else change_at self.old q) }
    {
        match name {
            Some(name) => self.add_named(name, side, share),
            None => {
                let change = self.nameless.unwrap_or(Change::none());
                self.nameless = Some(change.with(side, share));
                Ok(())
            }
        }
    }

    /// The names in the order of their bytes.
    fn changes(self, heap: Global) -> Result<Vec<NamedChange>, AllocError>
        ensures items { IfOk result (λ changes. changes.items ≡ map named_change self.by_name.entries) }
        ensures ordered { OnOk result (IsOrdered string_cmp self.by_name) }
    {
        let mut changes = Vec::new(heap);
        for (name, change) in self.by_name {
            changes.push(NamedChange { name, change })?;
        }
        Ok(changes)
    }

    /// The names in the order of a report.
    pub fn in_order(self, heap: Global) -> Result<Vec<NamedChange>, AllocError>
        ensures moved { IfOk result (λ changes.
            IsPermutation (map named_change self.by_name.entries) changes.items) }
        ensures order { IfOk result (λ changes. AreInOrder changes.items) }
        ensures ordered { OnOk result (IsOrdered string_cmp self.by_name) }
    {
        let mut changes = self.changes(heap)?;
        sort_changes(&mut changes);
        Ok(changes)
    }
}
