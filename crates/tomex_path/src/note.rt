//! What the walk along a path sees of a step, noted as the run is evaluated.

ghost use Rattle.std.specs.Prelude.{◌≡◌, ◌<◌, ◌≤◌, ◌+◌, ◌-◌, ◌^◌, ◌==◌, List, length, slice_index, IfOk};
ghost use Rattle.tomex_rvexec.specs.declared.step.Step.{Step};
ghost use Rattle.tomex_rvexec.specs.Run.{most_steps};
ghost use Rattle.tomex_timing.specs.Ahead.{end_in};
ghost use Rattle.tomex_timing.specs.Recent.{AreFacts, AreInRange};
ghost use Rattle.tomex_timing.specs.Search.{times_in};
ghost use Rattle.tomex_timing.specs.Waiting.{AreWithin};
ghost use Rattle.tomex_path.specs.Seen.{bus_wait, issue_wait, note_from, notes_in, operand_wait, start_wait};

use std::alloc::{AllocError, Allocator};
use tomex_config::Config;
use tomex_timing::{Facts, Latest, Recent, Times, Turn, Waits, end_of, next_turn};

/// What a step waited for last before its issue.
#[derive(Clone, Copy)]
pub(crate) enum IssueWait {
    Nothing,
    Branch,
    Width,
    Station,
}

/// What a step waited for last before its start.
#[derive(Clone, Copy)]
pub(crate) enum StartWait {
    Nothing,
    Operand,
    Address,
    Memory,
    Unit,
}

/// What is noted of a step's waits, and of what its times say of older steps, in 20 bytes.
#[derive(Clone, Copy)]
pub(crate) struct Note {
    /// The cycles of its last wait before its issue, and before its start.
    pub issue_cycles: u32,
    pub start_cycles: u32,
    /// Those of its wait for what its address comes after: its base, or an older address.
    pub address_cycles: u32,
    /// What these last waits are for.
    pub issue: IssueWait,
    pub start: StartWait,
    /// It ends later than each older step.
    pub is_last: bool,
    /// The producer of its base register ends in the cycle before its address.
    pub base: bool,
    /// The producer of its first operand, and of its second, ends in the cycle before its start.
    pub j: bool,
    pub k: bool,
}

/// A step of a run.
#[derive(Clone, Copy)]
pub(crate) struct Seen {
    pub facts: Facts,
    pub at: Times,
    /// The issue of the step before it; 0 if it is the first.
    pub previous: u64,
    pub note: Note,
}

/// The times of a run's steps, and what is noted of them.
#[derive(Drop)]
pub(crate) struct Noted<A: Allocator> {
    pub times: Vec<Times, A>,
    pub notes: Vec<Note, A>,
}

impl Seen {
    /// The cycles that its result waits for a bus.
    pub fn bus_wait(&self) -> u64
        ensures { result ≡ bus_wait self.now.at }
    {
        self.at.end.saturating_sub(self.at.finish).saturating_sub(1)
    }
}

/// True if a cycle is the one after another.
fn is_after(before: u64, cycle: u64) -> bool
    ensures { result ≡ (before + 1 == cycle) }
{
    cycle > 0 && before == cycle - 1
}

/// The last wait before an issue, and its cycles.
fn issue_wait(waits: &Waits) -> (IssueWait, u32)
    requires { AreWithin (2 ^ 32 - 1) waits.now }
    ensures { result ≡ issue_wait waits.now }
{
    if waits.station > 0 {
        (IssueWait::Station, waits.station as u32)
    } else if waits.width > 0 {
        (IssueWait::Width, waits.width as u32)
    } else if waits.branch > 0 {
        (IssueWait::Branch, waits.branch as u32)
    } else {
        (IssueWait::Nothing, 0)
    }
}

/// The last wait before a start, and its cycles.
fn start_wait(waits: &Waits) -> (StartWait, u32)
    requires { AreWithin (2 ^ 32 - 1) waits.now }
    ensures { result ≡ start_wait waits.now }
{
    if waits.unit > 0 {
        (StartWait::Unit, waits.unit as u32)
    } else if waits.memory > 0 {
        (StartWait::Memory, waits.memory as u32)
    } else if waits.address > 0 {
        (StartWait::Address, waits.address as u32)
    } else if waits.operand > 0 {
        (StartWait::Operand, waits.operand as u32)
    } else {
        (StartWait::Nothing, 0)
    }
}

impl Note {
    /// The note of a step with these times and waits, given the greatest end before it and the ends of its operands'
    /// producers.
    fn of(greatest: u64, j: u64, k: u64, at: &Times, waits: &Waits) -> Note
        requires { AreWithin (2 ^ 32 - 1) waits.now }
        ensures { result ≡ note_from greatest j k at.now waits.now }
    {
        let issue = issue_wait(waits);
        let start = start_wait(waits);
        let base = is_after(j, at.address.unwrap_or(0));
        Note {
            issue_cycles: issue.1,
            start_cycles: start.1,
            address_cycles: if base {
                waits.operand as u32
            } else {
                waits.address as u32
            },
            issue: issue.0,
            start: start.0,
            is_last: greatest < at.end,
            base,
            j: is_after(j, at.start),
            k: is_after(k, at.start),
        }
    }

    /// The cycles that the step waited for an operand, if that holds its start or its address.
    pub fn operand_wait(&self) -> u64
        ensures { result ≡ operand_wait self.now.start self.now }
    {
        match self.start {
            StartWait::Operand => u64::from(self.start_cycles),
            _ => u64::from(self.address_cycles),
        }
    }
}

/// The note of a next step, given the latest cycles of the steps before it.
#[inline(always)]
fn note_of(latest: &Latest, facts: &Facts, turn: &Turn) -> Note
    requires range { AreInRange facts.now }
    requires zero { slice_index latest.now.ends 0 ≡ 0 }
    requires small { AreWithin (2 ^ 32 - 1) turn.now.waits }
    ensures { result ≡ note_from latest.now.end (end_in latest.now.ends facts.now.j)
        (end_in latest.now.ends facts.now.k) turn.now.next.at turn.now.waits }
{
    let j = end_of(latest, facts.j);
    let k = end_of(latest, facts.k);
    Note::of(latest.end, j, k, &turn.next.at, &turn.waits)
}

/// The times and the notes of the run whose steps have these facts.
pub(crate) fn notes_of<A: Allocator + Clone>(
    alloc: &A,
    facts: &[Facts],
    config: &Config,
) -> Result<Noted<A>, AllocError>
    requires run { (steps : List Step) × AreFacts steps facts.now }
    requires few { length facts.now ≤ most_steps }
    ensures times { IfOk result (λ n. (steps : List Step) → AreFacts steps facts.now
        → n.times.items ≡ times_in config.now steps) }
    ensures notes { IfOk result (λ n. (steps : List Step) → AreFacts steps facts.now
        → n.notes.items ≡ notes_in config.now steps) }
{
    let mut times = Vec::with_capacity(alloc.clone()?, facts.len())?;
    let mut notes = Vec::with_capacity(alloc.clone()?, facts.len())?;
    let mut recent = Recent::new(alloc, alloc);
    config.keeps_limits();
    for step in facts {
        let turn = next_turn(config, &recent, step);
        notes.push(note_of(&recent.latest, step, &turn))?;
        recent.keep(step, &turn.next.at)?;
        times.push(turn.next.at)?;
    }
    Ok(Noted { times, notes })
}
