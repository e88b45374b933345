//! The turn of a run's next step.

ghost use Rattle.std.specs.Prelude.{◌≡◌};
ghost use Rattle.tomex_timing.specs.Ahead.{CanKeep, IsNextBy, IsReady, held_by};
ghost use Rattle.tomex_timing.specs.Waiting.{taken_from, waits_by};

use crate::need::Waits;
use crate::next::{Next, next_step};
use crate::recent::{Facts, Recent};
use crate::waiting::{Taken, parts_taken_by, waits_of};
use std::alloc::Allocator;
use tomex_config::Config;

/// A next step with its times, its waits and what it takes.
#[derive(Clone, Copy)]
pub struct Turn {
    pub next: Next,
    pub waits: Waits,
    pub taken: Taken,
}

/// The next step's times, its waits and what it takes.
// Inlined, so that a loop that ignores the waits doesn't compute them.
#[inline(always)]
pub fn next_turn<A: Allocator>(config: &Config, recent: &Recent<A>, facts: &Facts) -> Turn
    requires { IsReady config.now (held_by recent.now) facts.now }
    ensures next { IsNextBy config.now (held_by recent.now) facts.now result.next }
    ensures waits { result.waits ≡ waits_by recent.now.latest result.next.marks result.next.at }
    ensures taken { result.taken ≡ taken_from recent.now.latest result.next }
    ensures keeps { CanKeep facts.now result.next.at (held_by recent.now) }
{
    let next = next_step(config, recent, facts);
    Turn {
        next,
        waits: waits_of(&recent.latest, &next),
        taken: parts_taken_by(&recent.latest, &next),
    }
}
