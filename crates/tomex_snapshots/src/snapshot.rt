//! The content of stations and registers after a cycle.

ghost use Rattle.std.specs.Prelude.{◌≡◌, ◌-◌, ◌<◌, ◌^◌, length, List, [], None, replicate, IfSome};
ghost use Rattle.tomex_rvexec.specs.Steps.{j_of, k_of};
ghost use Rattle.tomex_timing.specs.Tables.{a_of, is_under_way, unsent_tag};
ghost use Rattle.tomex_snapshots.specs.Entries.{done_of, history_of};
ghost use Rattle.tomex_snapshots.specs.Kept.{AreSnapshots, IsSnapshot, snapshot_after, busy_in, field_in};
ghost use Rattle.tomex_snapshots.specs.Kept.{registers_after};
ghost use Rattle.tomex_snapshots.specs.Kept.{set_in, stations_after};

use crate::entries::Entry;
use tomex_rvdec::PoolId;
use tomex_rvexec::{Operand, Step};
use tomex_timing::{Busy, Field, Tag};

/// The stations' contents after a cycle, and what registers wait for.
#[derive(Clone, Copy)]
pub struct Snapshot {
    /// 16 places a pool, in the order of the pools.
    pub stations: [Option<Busy>; 96],
    /// Qi of each register.
    pub registers: [Option<Tag>; 32],
    /// The station that each register's value will come from, for the next step of the program.
    pub producers: [Option<Tag>; 32],
}

/// The snapshots of a view.
#[derive(Clone, Copy)]
pub struct Snapshots {
    /// The cycle before.
    pub before: Snapshot,
    /// The stations' contents after the cycle, with their fields as they were before it.
    pub taking: Snapshot,
    /// The view's cycle.
    pub now: Snapshot,
}

/// The station whose result isn't sent yet after a cycle.
fn unsent_tag(entry: &Entry, by: u64) -> Option<Tag>
    ensures { result ≡ unsent_tag by (done_of entry.now) }
{
    if by < entry.at.end {
        entry.station()
    } else {
        None
    }
}

/// True if a step has issued by a cycle, and not ended.
fn is_under_way(entry: &Entry, at: u64) -> bool
    ensures { result ≡ is_under_way at (done_of entry.now) }
{
    entry.at.issue <= at && at < entry.at.end
}

/// A of a step: the immediate before the address cycle, the address from that cycle on.
fn a_of(entry: &Entry, by: u64) -> Option<u32>
    ensures { result ≡ a_of by (done_of entry.now) }
{
    match entry.step.pool() {
        Some(PoolId::Load | PoolId::Store) => {
            let imm = entry.step.instr.imm();
            if by < entry.at.address.unwrap_or(0) {
                Some(imm)
            } else {
                Some(entry.step.vj.wrapping_add(imm))
            }
        }
        _ => None,
    }
}

/// An operand, given the stations that registers' values will come from.
fn field_in(producers: &[Option<Tag>; 32], operand: Option<Operand>) -> Field
    requires { IfSome operand (λ o. o.register < 32) }
    ensures { result ≡ field_in producers.now operand }
{
    match operand {
        Some(operand) => match producers[operand.register as usize] {
            Some(tag) => Field::Waits(tag),
            None => Field::Value(operand.value),
        },
        None => Field::Unread,
    }
}

/// The fields of a station, given the step in it.
fn busy_in(by: u64, tag: Tag, entry: &Entry, producers: &[Option<Tag>; 32]) -> Busy
    ensures { result ≡ busy_in by tag entry.now producers.now }
{
    Busy {
        tag,
        instr: entry.step.instr,
        j: field_in(producers, entry.step.j()),
        k: field_in(producers, entry.step.k()),
        a: a_of(entry, by),
    }
}

/// Sets a register's entry in the table, if there is a register.
fn set_in(tags: &mut [Option<Tag>; 32], register: Option<u8>, value: Option<Tag>)
    requires { IfSome register (λ r. r < 32) }
    ensures { tags.new ≡ set_in tags.old register value }
{
    if let Some(register) = register {
        tags[register as usize] = value;
    }
}

/// A law: an instruction's operands are registers.
fn operands_are_registers(step: &Step)
    ensures j { IfSome (j_of step.now) (λ o. o.register < 32) }
    ensures k { IfSome (k_of step.now) (λ o. o.register < 32) }
{
    let _j = step.j();
    let _k = step.k();
}

impl Snapshot {
    /// The snapshot before the first step.
    fn none() -> Snapshot
        ensures { result ≡ record {
          stations = replicate 96 None;
          registers = replicate 32 None;
          producers = replicate 32 None;
        } }
    {
        Snapshot {
            stations: [None; 96],
            registers: [None; 32],
            producers: [None; 32],
        }
    }

    /// Puts a step into its station, if it is under way.
    fn note_station(&mut self, entry: &Entry, by: u64, at: u64)
        ensures stations { self.new.stations
            ≡ stations_after by at entry.now self.old.producers self.old.stations }
        ensures registers { self.new.registers ≡ self.old.registers }
        ensures producers { self.new.producers ≡ self.old.producers }
    {
        if !is_under_way(entry, at) {
            return;
        }
        if let Some(tag) = entry.station() {
            if tag.number < 16 {
                let place = 16 * tag.pool.place() + tag.number as usize;
                self.stations[place] = Some(busy_in(by, tag, entry, &self.producers));
            }
        }
    }

    /// Notes the next step of the program.
    fn note(&mut self, entry: &Entry, by: u64, at: u64)
        ensures { self.new ≡ snapshot_after by at entry.now self.old }
    {
        self.note_station(entry, by, at);
        let unsent = unsent_tag(entry, by);
        if entry.at.issue <= by {
            set_in(&mut self.registers, entry.step.dest(), unsent);
        }
        set_in(&mut self.producers, entry.step.dest(), unsent);
    }
}

/// The stations' contents after cycle `at`, with their fields as of cycle `by`.
fn snapshot_of(entries: &[Entry], by: u64, at: u64) -> Snapshot
    ensures { IsSnapshot by at (history_of entries.now) result }
{
    let mut snapshot = Snapshot::none();
    for entry in entries {
        operands_are_registers(&entry.step);
        snapshot.note(entry, by, at);
    }
    snapshot
}

/// The snapshots of the view of a cycle.
pub fn snapshots_of(entries: &[Entry], cycle: u64) -> Snapshots
    ensures { AreSnapshots cycle (history_of entries.now) result }
{
    let past = cycle.saturating_sub(1);
    Snapshots {
        before: snapshot_of(entries, past, past),
        taking: snapshot_of(entries, past, cycle),
        now: snapshot_of(entries, cycle, cycle),
    }
}
