//! What workers find.

ghost use Rattle.std.specs.Prelude.{◌≡◌, ◌++◌, ℕ, [], length, IfOk, OnOk};
ghost use Rattle.tomex_study.specs.Study.{DesignSpace};
ghost use Rattle.tomex_choices.specs.Asking.{AreFound, AreJoined, IsJoined};

use crate::new_machine::NewMachine;
use std::alloc::{AllocError, Allocator};
use tomex_config::Part;

/// What was found of a list on some rows.
#[derive(Drop)]
pub(crate) struct ListFound<A: Allocator> {
    pub machines: Vec<NewMachine, A>,
    /// The greatest number with which some program takes other cycles than with the most, or 0.
    pub last_change: u8,
}

/// What was found on some rows: the programs' totals on each, and what was found of each list.
#[derive(Drop)]
pub(crate) struct Found<A: Allocator> {
    pub totals: Vec<[u64; 8], A>,
    pub lists: Vec<ListFound<A>, A>,
}

impl<A: Allocator> ListFound<A> {
    /// Adds what was found on other rows.
    fn append(&mut self, mut other: ListFound<A>) -> Result<(), AllocError>
        ensures { OnOk result (IsJoined self.old other self.new) }
    {
        self.last_change = self.last_change.max(other.last_change);
        self.machines.append(&mut other.machines)
    }
}

/// Adds what was found of each list on other rows.
fn append_lists<A: Allocator>(
    lists: &mut Vec<ListFound<A>, A>,
    others: Vec<ListFound<A>, A>,
) -> Result<(), AllocError>
    requires { length lists.old.items ≡ length others.items }
    ensures { OnOk result (AreJoined lists.old.items others.items lists.new.items) }
{
    let mut place = 0;
    for list in others {
        lists[place].append(list)?;
        place += 1;
    }
    Ok(())
}

impl<A: Allocator + Clone> Found<A> {
    /// Nothing yet.
    pub(crate) fn nothing(alloc: A) -> Result<Found<A>, AllocError>
        ensures totals { IfOk result (λ f. f.totals.items ≡ []) }
        ensures count { IfOk result (λ f. length f.lists.items ≡ 13) }
        ensures lists { (s : DesignSpace) (row : ℕ) → IfOk result (λ f. AreFound s row row f.lists.items) }
    {
        let mut lists = Vec::with_capacity(alloc.clone()?, Part::ALL.len())?;
        for _place in 0..13usize {
            lists.push(ListFound {
                machines: Vec::new(alloc.clone()?),
                last_change: 0,
            })?;
        }
        Ok(Found {
            totals: Vec::new(alloc),
            lists,
        })
    }

    /// Adds what was found on the rows after these.
    pub(crate) fn append(&mut self, mut other: Found<A>) -> Result<(), AllocError>
        requires { length self.old.lists.items ≡ length other.lists.items }
        ensures totals { OnOk result (self.new.totals.items ≡ self.old.totals.items ++ other.totals.items) }
        ensures lists { OnOk result (AreJoined self.old.lists.items other.lists.items self.new.lists.items) }
    {
        self.totals.append(&mut other.totals)?;
        append_lists(&mut self.lists, other.lists)
    }
}
