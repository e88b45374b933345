//! The steps of each key, such as an address, counted with their cycles and waits.

ghost use Rattle.std.specs.Prelude.{◌≡◌, ◌^◌, ◌<◌, ◌≤◌, ◌++◌, ◌∷◌, [], ℕ, IfOk, List, OnOk, All, length, map};
ghost use Rattle.tomex_rvexec.specs.declared.step.Step.{Step};
ghost use Rattle.tomex_timing.specs.Waiting.{AreWithin};
ghost use Rattle.tomex_run_views.specs.ByPlace.{Visit};
ghost use Rattle.tomex_run_views.specs.Tally.{HasRoom, IsTally, cycles_by, more_at, no_sum, sum_after, visit};
ghost use Rattle.tomex_run_views.specs.Tally.{visits_by, with_drain};
ghost use Rattle.tomex_rvexec.specs.Run.{most_steps};

use std::alloc::{AllocError, Allocator};
use std::collections::BTreeMap;
use tomex_rvexec::Step;
use tomex_timing::Waits;

/// How many steps there are, how many cycles they take, and how long they wait, in cycles.
#[derive(Clone, Copy, Drop)]
pub struct Sum {
    pub steps: u64,
    /// How many cycles each of them issues after the step before it.
    pub cycles: u64,
    pub waits: Waits,
}

/// The steps with one key.
#[derive(Clone, Copy, Drop)]
pub struct Group {
    pub first: Step,
    pub sum: Sum,
}

/// The steps of each key, and all of them.
#[derive(Drop)]
pub struct Tally<A: Allocator> {
    pub groups: BTreeMap<u64, Group, A>,
    pub all: Sum,
}

/// How many cycles a step issues after the one before it, or after cycle 0.
pub fn cycles_of(index: usize, waits: &Waits) -> u64
    requires { AreWithin (2 ^ 35) waits.now }
    ensures value { result ≡ cycles_by (more_at index) waits.now }
    ensures bound { result ≤ 2 ^ 37 }
{
    waits.branch + waits.width + waits.station + u64::from(index == 0)
}

impl Sum {
    /// Of no steps.
    pub fn none() -> Sum
        ensures { result ≡ no_sum }
    {
        Sum {
            steps: 0,
            cycles: 0,
            waits: Waits {
                branch: 0,
                width: 0,
                station: 0,
                operand: 0,
                address: 0,
                memory: 0,
                unit: 0,
                bus: 0,
            },
        }
    }

    /// Counts one step more.
    pub fn add(&mut self, cycles: u64, waits: &Waits)
        requires steps { self.old.steps < 2 ^ 63 }
        requires old_cycles { self.old.cycles ≤ 2 ^ 63 }
        requires cycles { cycles ≤ 2 ^ 62 }
        requires sum { AreWithin (2 ^ 63) self.old.waits }
        requires waits { AreWithin (2 ^ 62) waits.now }
        ensures { self.new ≡ sum_after self.old cycles waits.now }
    {
        self.steps += 1;
        self.cycles += cycles;
        self.waits.branch += waits.branch;
        self.waits.width += waits.width;
        self.waits.station += waits.station;
        self.waits.operand += waits.operand;
        self.waits.address += waits.address;
        self.waits.memory += waits.memory;
        self.waits.unit += waits.unit;
        self.waits.bus += waits.bus;
    }

    /// With the cycles of the drain, which are no step's.
    pub fn with_drain(&self, drain: u64) -> Sum
        requires cycles { self.now.cycles ≤ 2 ^ 62 }
        requires drain { drain ≤ 2 ^ 62 }
        ensures { result ≡ with_drain drain self.now }
    {
        let mut sum = *self;
        sum.cycles += drain;
        sum
    }
}

impl Group {
    /// Before its first step is counted.
    fn new(first: Step) -> Group
        ensures { result ≡ record { first = first; sum = no_sum } }
    {
        Group {
            first,
            sum: Sum::none(),
        }
    }

    /// Counts one step more.
    fn add(&mut self, cycles: u64, waits: &Waits)
        requires steps { self.old.sum.steps < 2 ^ 63 }
        requires old_cycles { self.old.sum.cycles ≤ 2 ^ 63 }
        requires cycles { cycles ≤ 2 ^ 62 }
        requires sum { AreWithin (2 ^ 63) self.old.sum.waits }
        requires waits { AreWithin (2 ^ 62) waits.now }
        ensures { self.new ≡ record self.old { sum = sum_after self.old.sum cycles waits.now } }
    {
        self.sum.add(cycles, waits);
    }
}

impl<A: Allocator + Clone> Tally<A> {
    /// Of no steps.
    pub fn new(alloc: A) -> Tally<A>
        ensures { (key : Step → ℕ) → IsTally key [] result }
    {
        Tally {
            groups: BTreeMap::new(alloc),
            all: Sum::none(),
        }
    }

    /// Counts a step with its key, its cycles and its waits.
    pub fn add(
        &mut self,
        key: u64,
        step: &Step,
        cycles: u64,
        waits: &Waits,
    ) -> Result<(), AllocError>
        requires room { HasRoom self.old }
        requires cycles { cycles ≤ 2 ^ 37 }
        requires waits { AreWithin (2 ^ 35) waits.now }
        ensures { OnOk result ((of : Step → ℕ) (visits : List Visit) → IsTally of visits self.old → key ≡ of step.now
            → IsTally of (visits ++ visit step.now cycles waits.now ∷ []) self.new) }
    {
        self.all.add(cycles, waits);
        let group = self.groups.entry(key)?.or_insert(Group::new(*step));
        group.add(cycles, waits);
        Ok(())
    }
}

/// Counts steps with their cycles and waits, by key and all together. There is a key and there are waits for each step.
pub fn count_by_key<A: Allocator + Clone>(
    alloc: A,
    keys: &[u64],
    steps: &[Step],
    waits: &[Waits],
) -> Result<Tally<A>, AllocError>
    requires few { length steps.now ≤ most_steps }
    requires keys { (key : Step → ℕ) × (keys.now ≡ map key steps.now) }
    requires pairs { length waits.now ≡ length steps.now }
    requires waits { All (AreWithin (2 ^ 35)) waits.now }
    ensures counted { IfOk result (λ tally. (key : Step → ℕ) → keys.now ≡ map key steps.now
        → IsTally key (visits_by 1 steps.now waits.now) tally) }
    ensures bound { IfOk result (λ tally. tally.all.cycles ≤ 2 ^ 62) }
{
    let mut tally = Tally::new(alloc);
    for (index, step) in steps.iter().enumerate() {
        let waits = &waits[index];
        tally.add(keys[index], step, cycles_of(index, waits), waits)?;
    }
    Ok(tally)
}
