//! The cycles of a path by the loops of its links' steps.

ghost use Rattle.std.specs.Prelude.{◌≡◌, ◌<◌, ◌≤◌, ℕ, [], All, IfOk, IfSome, OnOk, is_none, length, map};
ghost use Rattle.std.specs.Prelude.{replicate, slice_index, slice_index_or};
ghost use Rattle.tomex_path.specs.declared.link.Link.{Link};
ghost use Rattle.tomex_path.specs.declared.reason.Reason.{Reason};
ghost use Rattle.tomex_path_views.specs.ByReason.{links_with};
ghost use Rattle.tomex_path_views.specs.Shares.{AreShort, share_of};
ghost use Rattle.tomex_stretches.specs.Cycles.{is_key, sum_where};
ghost use Rattle.tomex_loop_views.specs.Charges.{charges_by, with_reason};
ghost use Rattle.tomex_loop_views.specs.PathCycles.{cycles_for, sum_for};

use crate::charges::{Charge, add_reason};
use crate::path_cycles::{keys_of_links, path_cycles_of};
use std::alloc::{AllocError, Allocator};
use tomex_loop_sums::no_groups;
use tomex_path::{Link, Reason};
use tomex_path_views::{REASONS, share_of};

/// The cycles of a path by reason: of each loop, of the steps outside of all, and of all steps.
#[derive(Drop)]
pub(crate) struct Paths<A: Allocator> {
    pub by_loop: Vec<Vec<Charge, A>, A>,
    pub outside: Vec<Charge, A>,
    pub total: Vec<Charge, A>,
}

/// Adds the cycles of a reason to those of each loop.
fn add_to_loops<A: Allocator>(
    by_loop: &mut Vec<Vec<Charge, A>, A>,
    reason: Reason,
    cycles: &[u64],
) -> Result<(), AllocError>
    requires { length cycles.now ≡ length by_loop.old.items }
    ensures count { OnOk result (length by_loop.new.items ≡ length by_loop.old.items) }
    ensures charges { OnOk result ((n : ℕ) → n < length cycles.now
        → slice_index_or (map (λ charges. charges.items) by_loop.new.items) n []
        ≡ with_reason reason (slice_index cycles.now n)
        (slice_index_or (map (λ charges. charges.items) by_loop.old.items) n [])) }
{
    for n in 0..cycles.len() {
        add_reason(&mut by_loop[n], reason, cycles[n])?;
    }
    Ok(())
}

impl<A: Allocator + Clone> Paths<A> {
    /// No cycles yet, of `count` loops.
    fn none(alloc: A, count: usize) -> Result<Paths<A>, AllocError>
        ensures count { IfOk result (λ p. length p.by_loop.items ≡ count) }
        ensures by_loop { IfOk result (λ p. map (λ charges. charges.items) p.by_loop.items ≡ replicate count []) }
        ensures outside { IfOk result (λ p. p.outside.items ≡ []) }
        ensures total { IfOk result (λ p. p.total.items ≡ []) }
    {
        Ok(Paths {
            by_loop: no_groups(alloc.clone()?, count)?,
            outside: Vec::new(alloc.clone()?),
            total: Vec::new(alloc),
        })
    }

    /// Adds the cycles of links that begin no earlier for a reason, given their keys.
    fn add(
        &mut self,
        alloc: A,
        keys: &[Option<u32>],
        links: &[Link],
        reason: Reason,
    ) -> Result<(), AllocError>
        requires short { AreShort links.now }
        requires pairs { length keys.now ≡ length links.now }
        requires keys { All (λ key. IfSome key (λ n. n < length self.old.by_loop.items)) keys.now }
        ensures count { OnOk result (length self.new.by_loop.items ≡ length self.old.by_loop.items) }
        ensures by_loop { OnOk result ((n : ℕ) → n < length self.old.by_loop.items
            → slice_index_or (map (λ charges. charges.items) self.new.by_loop.items) n []
            ≡ with_reason reason (sum_where (is_key n) keys.now (cycles_for reason links.now))
            (slice_index_or (map (λ charges. charges.items) self.old.by_loop.items) n [])) }
        ensures outside { OnOk result (self.new.outside.items
            ≡ with_reason reason (sum_where is_none keys.now (cycles_for reason links.now)) self.old.outside.items) }
        ensures total { OnOk result (self.new.total.items
            ≡ with_reason reason (share_of (links_with reason links.now)).cycles self.old.total.items) }
    {
        let sums = path_cycles_of(alloc, keys, self.by_loop.len(), links, reason)?;
        add_to_loops(&mut self.by_loop, reason, &sums.by_key)?;
        add_reason(&mut self.outside, reason, sums.without)?;
        add_reason(&mut self.total, reason, share_of(links, reason).cycles)
    }
}

/// The cycles of a path by reason, given the number of the loop of each step, of `count` loops.
pub(crate) fn paths_of<A: Allocator + Clone>(
    alloc: &A,
    keys: &[Option<u32>],
    count: usize,
    links: &[Link],
) -> Result<Paths<A>, AllocError>
    requires short { AreShort links.now }
    requires steps { All (λ l. (1 ≤ l.step) × (l.step ≤ length keys.now)) links.now }
    requires keys { All (λ key. IfSome key (λ n. n < count)) keys.now }
    ensures count { IfOk result (λ p. length p.by_loop.items ≡ count) }
    ensures by_loop { IfOk result (λ p. (n : ℕ) → n < count
        → slice_index_or (map (λ charges. charges.items) p.by_loop.items) n []
        ≡ charges_by (λ reason. sum_for reason (is_key n) keys.now links.now)) }
    ensures outside { IfOk result (λ p. p.outside.items
        ≡ charges_by (λ reason. sum_for reason is_none keys.now links.now)) }
    ensures total { IfOk result (λ p. p.total.items
        ≡ charges_by (λ reason. (share_of (links_with reason links.now)).cycles)) }
{
    let of_links = keys_of_links(alloc.clone()?, keys, links)?;
    let keys = of_links.as_slice();
    let mut paths = Paths::none(alloc.clone()?, count)?;
    for reason in REASONS {
        paths.add(alloc.clone()?, keys, links, reason)?;
    }
    Ok(paths)
}
