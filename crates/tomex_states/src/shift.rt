//! Moving a state to a later place of the run.

ghost use Rattle.std.specs.Prelude.{◌≡◌, ℕ, ◌+◌, ◌^◌, ◌<◌, ◌≤◌, All, OnErr, OnOk, reverse, slice_index};
ghost use Rattle.tomex_states.specs.Reuse.{CanBeKept, IsMoved, ShowsLater, ShowsSome, access_from};
ghost use Rattle.tomex_states.specs.Reuse.{accesses_under_way, latest_later, window_later};

use crate::state::{State, Window};
use std::alloc::{AllocError, Allocator};
use tomex_config::Config;
use tomex_timing::{Access, Facts, Latest};

/// Moves latest cycles. x0 is never written.
fn shift_latest(latest: &mut Latest, by: u64)
    requires ends { All (λ end. end + by < 2 ^ 64) latest.old.ends }
    requires issue { latest.old.issue + by < 2 ^ 64 }
    requires branch { latest.old.branch + by < 2 ^ 64 }
    requires address { latest.old.address + by < 2 ^ 64 }
    requires end { latest.old.end + by < 2 ^ 64 }
    ensures { latest.new ≡ latest_later by latest.old }
{
    for end in latest.ends.iter_mut() {
        *end += by;
    }
    latest.ends[0] = 0;
    latest.issue += by;
    latest.branch += by;
    latest.address += by;
    latest.end += by;
}

impl Window {
    /// Moves the finishes.
    fn shift(&mut self, by: u64)
        requires finishes { All (λ finish. finish + by < 2 ^ 64) self.old.finishes }
        requires older { self.old.older + by < 2 ^ 64 }
        ensures { self.new ≡ window_later by self.old }
    {
        for finish in self.finishes.iter_mut() {
            *finish += by;
        }
        self.older += by;
    }

    /// The number of accesses up to the oldest one that finishes in a cycle from the given one on.
    fn count_under_way(&self, from: u64) -> usize
        ensures few { result ≤ 4 }
        ensures past { (i : ℕ) → result ≤ i → i < 4 → slice_index self.now.finishes i < from }
        ensures last { (i : ℕ) → i + 1 ≡ result → from ≤ slice_index self.now.finishes i }
    {
        let mut count = 0;
        for (number, finish) in self.finishes.iter().enumerate() {
            if *finish >= from {
                count = number + 1;
            }
        }
        count
    }
}

/// Makes the list of the accesses under way in a cycle again, from the facts of the steps so far.
fn list_under_way<A: Allocator>(
    accesses: &mut Vec<Access, A>,
    window: &Window,
    facts: &[Facts],
    from: u64,
) -> Result<(), AllocError>
    ensures { OnOk result
        (accesses.new.items ≡ accesses_under_way from window.now.finishes (reverse facts.now)) }
{
    accesses.clear();
    let count = window.count_under_way(from);
    let mut number = 0;
    for place in (0..facts.len()).rev() {
        if number == count {
            break;
        }
        let step = &facts[place];
        if let Some(bytes) = step.bytes {
            let finish = window.finishes[number];
            if finish >= from {
                accesses.push(Access {
                    bytes,
                    is_store: step.is_store,
                    finish,
                })?;
            }
            number += 1;
        }
    }
    Ok(())
}

impl<A: Allocator> State<A> {
    /// Moves the state to a place of the run where the next step may issue `by` cycles later, and all looks like it did
    /// before. The facts are those of the steps before that place. Without memory only the accesses have changed.
    pub fn move_by(&mut self, config: &Config, by: u64, facts: &[Facts]) -> Result<(), AllocError>
        requires shows { ShowsSome config.now self.old }
        requires kept { CanBeKept config.now self.old }
        requires small { self.old.recent.latest.end + by < 2 ^ 63 }
        ensures moved { OnOk result (IsMoved config.now by facts.now self.old self.new) }
        ensures shows { OnOk result (ShowsLater config.now by facts.now self.old self.new) }
        ensures latest { OnErr result (self.new.recent.latest ≡ self.old.recent.latest) }
        ensures table { OnErr result (self.new.recent.table ≡ self.old.recent.table) }
        ensures stations { OnErr result (self.new.recent.stations ≡ self.old.recent.stations) }
        ensures window { OnErr result (self.new.window ≡ self.old.window) }
    {
        config.keeps_limits();
        let from = self.access_from(config) + by;
        let mut window = self.window;
        window.shift(by);
        list_under_way(&mut self.recent.accesses, &window, facts, from)?;
        self.window = window;
        shift_latest(&mut self.recent.latest, by);
        self.recent.table.shift(by);
        self.recent.stations.shift(by);
        Ok(())
    }
}
