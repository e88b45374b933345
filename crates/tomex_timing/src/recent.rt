//! The evaluator's record of the earlier steps: the latest of each kind of cycle, and everything that may still block a
//! next step.

ghost use Rattle.std.specs.Prelude.{◌≡◌, ◌<◌, ◌^◌, ◌+◌, ◌==◌, if◌then◌else◌, IfOk, IfSome};
ghost use Rattle.std.specs.Option.{ForSome};
ghost use Rattle.tomex_timing.specs.Ahead.{CanKeep, CanReserve, IsHeldAfter, IsTableAfter, accesses_after};
ghost use Rattle.tomex_timing.specs.Ahead.{held_by, nothing_held};
ghost use Rattle.tomex_timing.specs.Recent.{AreFacts, AreInRange, facts_of, is_memory_pool, latest_after, nothing_yet};
ghost use Rattle.tomex_timing.specs.Recent.{register_of};

use crate::accesses::Access;
use crate::times::Times;
use std::alloc::{AllocError, Allocator};
use tomex_reservations::{BUSES, ReservationTable, Stations};
use tomex_rvdec::{PoolId, UnitId};
use tomex_rvexec::{ByteRange, Operand, Step};

/// The facts that a recurrence reads of a step, taken from its instruction only once.
#[derive(Clone, Copy)]
pub struct Facts {
    pub pool: Option<PoolId>,
    pub unit: Option<UnitId>,
    pub dest: Option<u8>,
    /// The registers of its operands.
    pub j: Option<u8>,
    pub k: Option<u8>,
    pub bytes: Option<ByteRange>,
    pub is_store: bool,
    pub is_branch: bool,
}

/// The latest of each kind of cycle so far; 0 if there is none.
#[derive(Clone, Copy)]
pub struct Latest {
    /// The end of each register's youngest writer.
    pub ends: [u64; 32],
    pub issue: u64,
    /// The number of steps that issued in that cycle.
    pub issued: u64,
    /// The latest finish of a branch.
    pub branch: u64,
    pub address: u64,
    /// The greatest end.
    pub end: u64,
}

/// All that is kept. There is no list of steps: these fields say of them what a next step depends on.
#[derive(Drop)]
pub struct Recent<A: Allocator> {
    pub latest: Latest,
    /// The units and buses that are taken.
    pub table: ReservationTable<A>,
    pub stations: Stations,
    /// The loads and stores that may not have finished yet.
    pub accesses: Vec<Access, A>,
}

/// The register of an operand.
fn register_of(operand: Option<Operand>) -> Option<u8>
    requires { ForSome operand (λ o. o.register < 32) }
    ensures value { result ≡ register_of operand }
    ensures register { IfSome result (λ r. r < 32) }
{
    match operand {
        None => None,
        Some(operand) => Some(operand.register),
    }
}

impl Facts {
    #[inline(always)]
    pub(crate) fn of(step: &Step) -> Facts
        ensures facts { result ≡ facts_of step.now }
        ensures range { AreInRange result }
    {
        Facts {
            pool: step.pool(),
            unit: step.unit(),
            dest: step.dest(),
            j: register_of(step.j()),
            k: register_of(step.k()),
            bytes: step.bytes(),
            is_store: step.is_store(),
            is_branch: step.is_branch(),
        }
    }

    /// True for a load or store.
    #[inline(always)]
    pub fn is_memory(&self) -> bool
        ensures { result ≡ is_memory_pool self.now.pool }
    {
        matches!(self.pool, Some(PoolId::Load | PoolId::Store))
    }
}

/// The facts of a run's steps.
pub(crate) fn facts_of<A: Allocator>(alloc: A, steps: &[Step]) -> Result<Vec<Facts, A>, AllocError>
    ensures { IfOk result (λ v. AreFacts steps.now v.items) }
{
    let mut facts = Vec::new(alloc);
    for step in steps {
        facts.push(Facts::of(step))?;
    }
    Ok(facts)
}

impl Latest {
    /// No cycles: the state before the first step.
    pub fn none() -> Latest
        ensures { result ≡ nothing_yet }
    {
        Latest {
            ends: [0; 32],
            issue: 0,
            issued: 0,
            branch: 0,
            address: 0,
            end: 0,
        }
    }

    /// The number of steps that issue in `cycle`, including one that issues in it next.
    #[inline(always)]
    pub fn count_issued_in(&self, cycle: u64) -> u64
        requires { self.now.issued < 2 ^ 63 }
        ensures { result ≡ (if cycle == self.now.issue then self.now.issued + 1 else 1) }
    {
        if cycle == self.issue {
            self.issued + 1
        } else {
            1
        }
    }

    /// Notes a step with its times.
    #[inline(always)]
    pub fn note(&mut self, facts: &Facts, at: &Times)
        requires register { IfSome facts.now.dest (λ r. r < 32) }
        requires few { self.old.issued < 2 ^ 63 }
        ensures { self.new ≡ latest_after facts.now at.now self.old }
    {
        let issued = self.count_issued_in(at.issue);
        self.note_issued(facts, at, issued);
    }

    /// Notes a step with its times, given how many steps issue in the cycle of its issue.
    #[inline(always)]
    pub fn note_issued(&mut self, facts: &Facts, at: &Times, issued: u64)
        requires register { IfSome facts.now.dest (λ r. r < 32) }
        requires issued { issued ≡ (if at.now.issue == self.old.issue then self.old.issued + 1 else 1) }
        ensures { self.new ≡ latest_after facts.now at.now self.old }
    {
        if let Some(register) = facts.dest {
            self.ends[register as usize] = at.end;
        }
        self.issued = issued;
        self.issue = at.issue;
        if facts.is_branch {
            self.branch = at.finish.max(self.branch);
        }
        if let Some(cycle) = at.address {
            self.address = cycle;
        }
        self.end = at.end.max(self.end);
    }
}

/// Notes what a step takes in later cycles: a unit as it starts, and a bus as its result ends.
#[inline(always)]
fn reserve<A: Allocator>(
    table: &mut ReservationTable<A>,
    facts: &Facts,
    at: &Times,
) -> Result<(), AllocError>
    requires { CanReserve facts.now at.now table.old }
    ensures { IfOk result (λ _. IsTableAfter facts.now at.now table.old table.new) }
{
    if let Some(unit) = facts.unit {
        table.take(unit.place(), at.start)?;
        if facts.dest.is_some() {
            table.take(BUSES, at.end)?;
        }
    }
    table.pass(at.issue);
    Ok(())
}

/// Keeps an access, and of the earlier ones those that finish no earlier than it issues.
#[inline(always)]
pub(crate) fn keep_access<A: Allocator>(
    accesses: &mut Vec<Access, A>,
    facts: &Facts,
    at: &Times,
) -> Result<(), AllocError>
    ensures { IfOk result
        (λ _. accesses.new.items ≡ accesses_after facts.now at.now accesses.old.items) }
{
    if let Some(bytes) = facts.bytes {
        accesses.retain(|access| access.finish >= at.issue);
        accesses.push(Access {
            bytes,
            is_store: facts.is_store,
            finish: at.finish,
        })?;
    }
    Ok(())
}

impl<A: Allocator> Recent<A> {
    /// The state before the first step, with memory from the two allocators.
    pub fn new(table: A, accesses: A) -> Recent<A>
        ensures { held_by result ≡ nothing_held }
    {
        Recent {
            latest: Latest::none(),
            table: ReservationTable::new(table),
            stations: Stations::none(),
            accesses: Vec::new(accesses),
        }
    }

    /// Keeps a step with its times.
    #[inline(always)]
    pub fn keep(&mut self, facts: &Facts, at: &Times) -> Result<(), AllocError>
        requires { CanKeep facts.now at.now (held_by self.old) }
        ensures { IfOk result (λ _. IsHeldAfter facts.now at.now (held_by self.old) (held_by self.new)) }
    {
        reserve(&mut self.table, facts, at)?;
        keep_access(&mut self.accesses, facts, at)?;
        if let (Some(pool), Some(number)) = (facts.pool, at.station) {
            self.stations.take(pool, number, at.end);
        }
        self.latest.note(facts, at);
        Ok(())
    }
}
