//! The end of a cycle: what ends, what is sent, and where branches lead.

ghost use Rattle.std.specs.Prelude.{◌≡◌, ◌<◌, ◌≤◌, ◌^◌, ◌==◌, None, Some};
ghost use Rattle.tomex_tags.specs.Operands.{only};
ghost use Rattle.tomex_tags.specs.Pools.{AreBusy};
ghost use Rattle.tomex_cycle.specs.Ends.{AreDone, AreEnding, AreNamed, EndsIn, EndsPicked, Follows, IsDoneBranch};
ghost use Rattle.tomex_cycle.specs.Ends.{Receives, SendsPicked, sends_of, target_in};
ghost use Rattle.tomex_cycle.specs.Finishes.{AreTurned, LeavesTimetable};
ghost use Rattle.tomex_tags.specs.Contents.{slot};

use crate::fetch::Fetch;
use crate::finishes::Finishes;
use tomex_bus::{both, difference, lowest, pick, union, without_lowest};
use tomex_rvdec::UnitId;
use tomex_rvexec::next_pc;
use tomex_tags::{Pools, RegStatus, Station, broadcast, places_served_by};

/// The operations that finish and the instructions that end in a cycle.
#[derive(Clone, Copy)]
pub struct Ending {
    /// The places whose operations finish.
    pub due: u128,
    /// Those whose instructions end: the oldest unsent results, as many as there are buses, and
    /// what finishes without a destination.
    pub ending: u128,
}

/// Chooses what ends in the cycle, given the places whose operations finish in it. After this the results that finish
/// in it are among the unsent ones.
pub fn choose_ending(
    pools: &Pools,
    finishes: &mut Finishes,
    due: u128,
    buses: u8,
    cycle: u64,
) -> Ending
    requires timetable { AreTurned pools.now.slots cycle due finishes.old }
    requires some { 1 ≤ buses }
    ensures due { AreDone pools.now.slots cycle result.due }
    ensures ending { AreEnding pools.now buses cycle result.ending }
    ensures busy { AreBusy pools.now.slots pools.now.busy pools.now.issue_numbers }
    ensures timetable { LeavesTimetable pools.now.slots cycle result.ending finishes.new }
    ensures none_unsent { result.ending ≡ 0 → result.due ≡ 0 → finishes.new.unsent ≡ 0 }
    ensures fits { (result.due < 2 ^ 128) × (result.ending < 2 ^ 128) }
{
    let writing = pools.writers();
    let sending = pick(finishes.unsent, pools.issue_numbers(), buses);
    let results = both(due, writing);
    finishes.send(sending, results);
    Ending {
        due,
        ending: union(sending, difference(due, results)),
    }
}

/// Frees a place and sends its station's result, if it has one.
fn end_at(pools: &mut Pools, registers: &mut RegStatus, place: usize)
    requires { place < 96 }
    ensures stations { EndsIn (λ x. place == x)
        (only place (sends_of (slot pools.old.slots place))) pools.old pools.new }
    ensures registers { AreNamed pools.old.slots registers.old
        → Receives (only place (sends_of (slot pools.old.slots place))) registers.old registers.new }
{
    if let Some(station) = pools.at(place) {
        pools.release(place);
        if let Some(register) = station.instr.dest() {
            broadcast(pools, registers, place, register, station.value);
        }
    }
}

/// Ends the instructions in the picked places.
pub fn apply(pools: &mut Pools, registers: &mut RegStatus, picked: u128)
    ensures stations { EndsPicked picked pools.old pools.new }
    ensures registers { SendsPicked picked pools.old registers.old registers.new }
{
    let mut rest = picked;
    'members: while rest != 0 {
        let place = lowest(rest);
        rest = without_lowest(rest);
        if place < 96 {
            end_at(pools, registers, place);
        }
    }
}

/// The place of the branch that finishes in the cycle, if any.
#[inline(always)]
fn done_branch(pools: &Pools, due: u128, cycle: u64) -> Option<usize>
    requires { AreDone pools.now.slots cycle due }
    ensures { IsDoneBranch cycle pools.now.slots result }
{
    let branches = both(due, places_served_by(UnitId::Bru));
    if branches == 0 {
        return None;
    }
    Some(lowest(branches))
}

/// The next pc after the instruction in a place; 0 if the place is free.
fn target_at(station: Option<Station>) -> u32
    ensures { result ≡ target_in station }
{
    match station {
        Some(station) => next_pc(&station.step()),
        None => 0,
    }
}

/// Follows the branch that the next instruction waits for, if it finishes in the cycle.
#[inline(always)]
pub fn follow(fetch: &mut Fetch, pools: &Pools, due: u128, cycle: u64)
    requires { AreDone pools.now.slots cycle due }
    ensures { Follows cycle pools.now.slots fetch.old fetch.new }
{
    if let Fetch::Waits = *fetch {
        if let Some(place) = done_branch(pools, due, cycle) {
            *fetch = Fetch::At(target_at(pools.at(place)));
        }
    }
}
