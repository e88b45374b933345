//! The floors of a run, kept for the latencies for which they were asked.

ghost use Rattle.std.specs.Prelude.{◌≡◌, ◌≢◌, ◌<◌, ◌^◌, length, All, IfOk, IfSome, None};
ghost use Rattle.std.specs.List.{Contains};
ghost use Rattle.tomex_config.specs.Configuration.{latency_of};
ghost use Rattle.tomex_floor.specs.Floor.{floor_of, floors_by_width};
ghost use Rattle.tomex_floor.specs.Flooring.{is_used_by, used_latencies, used_latency};
ghost use Rattle.tomex_timing.specs.History.{is_of};

use crate::evaluate::floors;
use std::alloc::{AllocError, Allocator, Global};
use std::marker::Model;
use tomex_config::Config;
use tomex_rvdec::UnitId;
use tomex_timing::Run;

/// A run's floors for the widths from 1 to 4, with these latencies of the kinds of units that it uses.
#[derive(Clone, Copy, Drop)]
pub(crate) struct KnownFloors {
    /// 0 of a kind that it doesn't use.
    pub latencies: [u8; 5],
    pub floors: [u64; 4],
}

/// A run, and its floors as far as they were asked for: they are computed once for each set of latencies of the kinds
/// of units that it uses. Contracts see it as the run.
#[derive(Drop)]
pub struct Floored<'r, A: Allocator = Global> {
    run: &'r Run<A>,
    /// For each kind of unit whether the run uses it.
    uses: [bool; 5],
    known: Vec<KnownFloors, A>,
}

impl<'r, A: Allocator> Model for Floored<'r, A> {
    ghost use Rattle.std.specs.Prelude.{List};
    ghost use Rattle.tomex_floor.specs.Flooring.{AreFloors};
    ghost use Rattle.tomex_rvexec.specs.declared.step.Step.{Step};

    ghost Value = { List Step };

    ghost view = { λ f. f.run.now };

    ghost invariant = { λ f. AreFloors f.run.now f.uses f.known.items };
}

/// True if a step's kind of unit is this one.
fn is_of(unit: UnitId, of: Option<UnitId>) -> bool
    ensures { result ≡ is_of unit of }
{
    match of {
        Some(other) => other.place() == unit.place(),
        None => false,
    }
}

/// True if a step of a run uses a unit of this kind.
fn is_used_by<A: Allocator>(run: &Run<A>, unit: UnitId) -> bool
    ensures { result ≡ is_used_by run.now unit }
{
    for step in run.steps() {
        if is_of(unit, step.unit()) {
            return true;
        }
    }
    false
}

/// A latency of a kind of unit that is used, else 0.
fn used_latency(is_used: bool, latency: u8) -> u8
    ensures { result ≡ used_latency is_used latency }
{
    if is_used { latency } else { 0 }
}

/// A configuration's latencies of the kinds of units that are used.
fn used_latencies(uses: [bool; 5], config: &Config) -> [u8; 5]
    ensures { result ≡ used_latencies uses config.now }
{
    [
        used_latency(uses[0], config.latency(UnitId::Alu)),
        used_latency(uses[1], config.latency(UnitId::Mul)),
        used_latency(uses[2], config.latency(UnitId::Div)),
        used_latency(uses[3], config.latency(UnitId::Mem)),
        used_latency(uses[4], config.latency(UnitId::Bru)),
    ]
}

/// The floors that are known for these latencies.
fn known_for(known: &[KnownFloors], latencies: [u8; 5]) -> Option<[u64; 4]>
    ensures some { IfSome result (λ f. Contains known.now (record { latencies = latencies; floors = f })) }
    ensures none { result ≡ None → All (λ k. k.latencies ≢ latencies) known.now }
{
    for one in known {
        if one.latencies == latencies {
            return Some(one.floors);
        }
    }
    None
}

impl<'r, A: Allocator + Clone> Floored<'r, A> {
    /// A run, of whose floors nothing is known. Allocates nothing.
    pub fn new(alloc: A, run: &'r Run<A>) -> Floored<'r, A>
        requires few { length run.now < 2 ^ 56 }
        ensures { result ≡ run.now }
    {
        Floored {
            run,
            uses: [
                is_used_by(run, UnitId::Alu),
                is_used_by(run, UnitId::Mul),
                is_used_by(run, UnitId::Div),
                is_used_by(run, UnitId::Mem),
                is_used_by(run, UnitId::Bru),
            ],
            known: Vec::new(alloc),
        }
    }

    /// The run's floors, in cycles, for a configuration's latencies and the widths from 1 to 4. The first time that
    /// such latencies are asked for, it is one walk over the run.
    pub fn floors_for(&mut self, alloc: &A, config: &Config) -> Result<[u64; 4], AllocError>
        ensures run { self.new ≡ self.old }
        ensures floors { IfOk result (λ f. f ≡ floors_by_width (latency_of config.now) self.old) }
    {
        let latencies = used_latencies(self.uses, config);
        if let Some(floors) = known_for(self.known.as_slice(), latencies) {
            return Ok(floors);
        }
        let floors = floors(alloc.clone()?, self.run, config)?;
        self.known.push(KnownFloors { latencies, floors })?;
        Ok(floors)
    }

    /// The run's floor, in cycles, for a configuration's latencies and its own width.
    pub fn own_floor(&mut self, alloc: &A, config: &Config) -> Result<u64, AllocError>
        ensures run { self.new ≡ self.old }
        ensures floor { IfOk result (λ n. n ≡ floor_of (latency_of config.now) config.now.width self.old) }
    {
        config.keeps_limits();
        let floors = self.floors_for(alloc, config)?;
        Ok(floors[usize::from(config.width()) - 1])
    }
}
