//! Rows whose totals are known, and how they are judged.

ghost use Rattle.std.specs.Prelude.{◌≡◌, ◌<◌, ◌≤◌, ◌^◌, length, sum, All};
ghost use Rattle.tomex_config.specs.Configuration.{Configuration, IsWithinLimits};
ghost use Rattle.tomex_study.specs.Cycles.{totals_on};
ghost use Rattle.tomex_plateaus.specs.Looks.{weighted_cycles};
ghost use Rattle.tomex_plateaus.specs.Looks.{IsKnownRow};
ghost use Rattle.tomex_study.specs.Program.{IsProgram};

use std::alloc::Allocator;
use tomex_study::Program;

/// The number of a row's cycles from one look to the next.
const STRIDE: u64 = 1024;

/// A row whose programs' totals are known. So nothing happens between two of its looks, and they
/// differ only in the cycles that the row has made, which are the most at the last one.
#[derive(Clone, Copy, PartialEq, Eq)]
pub struct KnownRow {
    /// Its cycles: the weighted sum of its programs' cycles.
    pub cycles: u64,
    /// The cycles that it has made at its last look, by the same weights. `None` if it is over
    /// before the first look.
    pub at_last_look: Option<u64>,
}

/// The first `made` cycles of runs with these totals, one after another, each times its program's
/// weight.
fn weighted_cycles<A: Allocator>(programs: &[Program<A>], totals: &[u64], made: u64) -> u64
    requires few { length programs.now ≤ 8 }
    requires ends { All IsProgram programs.now }
    requires totals { (config : Configuration) × IsWithinLimits config
        × (totals.now ≡ totals_on programs.now config) }
    ensures { (config : Configuration) → totals.now ≡ totals_on programs.now config
        → result ≡ weighted_cycles programs.now config made }
{
    let mut left = made;
    let mut cycles = 0;
    for (place, program) in programs.iter().enumerate() {
        let total = totals[place];
        cycles += u64::from(program.weight()) * left.min(total);
        left = left.saturating_sub(total);
    }
    cycles
}

fn sum_of(totals: &[u64]) -> u64
    requires { sum totals.now < 2 ^ 64 }
    ensures { result ≡ sum totals.now }
{
    totals.iter().sum()
}

impl KnownRow {
    /// The row on which the programs have these totals, in their order.
    pub fn of<A: Allocator>(programs: &[Program<A>], totals: &[u64]) -> KnownRow
        requires few { length programs.now ≤ 8 }
        requires ends { All IsProgram programs.now }
        requires totals { (config : Configuration) × IsWithinLimits config
            × (totals.now ≡ totals_on programs.now config) }
        ensures { (config : Configuration) → totals.now ≡ totals_on programs.now config
            → IsKnownRow programs.now config result }
    {
        let plain = sum_of(totals);
        let at_last_look = if STRIDE < plain {
            Some(weighted_cycles(programs, totals, STRIDE * ((plain - 1) / STRIDE)))
        } else {
            None
        };
        KnownRow {
            cycles: weighted_cycles(programs, totals, plain),
            at_last_look,
        }
    }
}
