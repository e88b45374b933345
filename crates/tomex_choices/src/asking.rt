//! What one row brings to the lists: its new machines, and their cycles.

ghost use Rattle.std.specs.Prelude.{◌≡◌, ◌<◌, ◌≤◌, ℕ, true, if◌then◌else◌, map, max, length, take, List, Option};
ghost use Rattle.std.specs.Prelude.{IfOk, OnOk};
ghost use Rattle.tomex_config.specs.Configuration.{is_between};
ghost use Rattle.tomex_study.specs.Cycles.{totals_on};
ghost use Rattle.tomex_study.specs.Study.{config_at};
ghost use Rattle.tomex_config.specs.Parts.{part_at};
ghost use Rattle.tomex_choices.specs.Asking.{AreAsked, AreAskedTotals, AreLists, IsAsked, IsAskedOnce};
ghost use Rattle.tomex_choices.specs.Asking.{IsNumberAsked, differ};
ghost use Rattle.tomex_config.specs.Parts.{latency_in, most_of};
ghost use Rattle.tomex_choices.specs.NewMachines.{grown, machine_of};
ghost use Rattle.tomex_plateaus.specs.Knowledge.{AreLearnt, known_totals_on};
ghost use Rattle.tomex_config.specs.Parts.{with_count};

use crate::entries::Entries;
use crate::found::ListFound;
use crate::new_machine::NewMachine;
use std::alloc::{AllocError, Allocator};
use tomex_config::{Config, Part, cost, with_count};
use tomex_plateaus::Knowledge;
use tomex_study::Study;
use tomex_survey::cycles_by_weight;

/// The programs' totals on any configuration, which are looked up first, or learnt.
fn totals_on<A: Allocator + Clone>(
    knowledge: &mut Knowledge<'_, A>,
    config: &Config,
) -> Result<[u64; 8], AllocError>
    ensures programs { knowledge.new.programs ≡ knowledge.old.programs }
    ensures totals { IfOk result
        (λ t. take (length knowledge.old.programs) t ≡ totals_on knowledge.old.programs config.now) }
    ensures learnt { OnOk result ((known : List (Option ℕ))
        × (take (length knowledge.old.programs) known ≡ known_totals_on knowledge.old.lists config.now)
        × AreLearnt config.now known knowledge.old.lists knowledge.new.lists) }
{
    let known = knowledge.known_totals(config);
    knowledge.learn(config, known)
}

/// A new machine, on which the programs have these totals.
fn new_machine<A: Allocator>(
    study: &Study<A>,
    part: Part,
    number: u8,
    config: &Config,
    totals: &[u64],
) -> NewMachine
    requires { totals.now ≡ totals_on study.now.programs config.now }
    ensures { result ≡ machine_of study.now part number config.now }
{
    study.keeps_limits();
    config.keeps_limits();
    NewMachine {
        number,
        latency: part.latency(config),
        cost: cost(config, &study.prices()),
        cycles: cycles_by_weight(study.programs(), totals),
    }
}

/// True if two lists of the same length differ.
fn differ(a: &[u64], b: &[u64]) -> bool
    requires { length a.now ≡ length b.now }
    ensures { result ≡ differ a.now b.now }
{
    for place in 0..a.len() {
        if a[place] != b[place] {
            return true;
        }
    }
    false
}

/// The last number with which something changes, after one more number was asked.
fn last_change(last: u8, changes: bool, number: u8) -> u8
    ensures { result ≡ (if changes then max last number else last) }
{
    if changes { last.max(number) } else { last }
}

/// The programs' totals with some numbers of a part, from `low` on up to the number that was asked.
#[derive(Clone, Copy)]
pub(crate) struct AskedTotals {
    pub totals: [u64; 8],
    pub low: u64,
}

/// Asks a configuration with a number of a part. The totals are those of all lower numbers that lie on the same
/// plateaus, too.
fn totals_down<A: Allocator + Clone>(
    knowledge: &mut Knowledge<'_, A>,
    config: &Config,
    part: Part,
    number: u8,
) -> Result<AskedTotals, AllocError>
    requires { is_between 1 (most_of part) number ≡ true }
    ensures programs { knowledge.new.programs ≡ knowledge.old.programs }
    ensures totals { IfOk result (AreAskedTotals knowledge.old.programs config.now part number) }
    ensures low { IfOk result (λ a. a.low ≤ number) }
{
    config.keeps_limits();
    let asked = with_count(config, part, number);
    let totals = totals_on(knowledge, &asked)?;
    let low = knowledge.reach(&asked, part).min(u64::from(number));
    Ok(AskedTotals { totals, low })
}

/// The totals with a number of a part, of which the next number above it had these.
fn next_totals<A: Allocator + Clone>(
    knowledge: &mut Knowledge<'_, A>,
    config: &Config,
    part: Part,
    number: u8,
    before: AskedTotals,
) -> Result<AskedTotals, AllocError>
    requires number { is_between 1 (most_of part) number ≡ true }
    requires before { AreAskedTotals knowledge.old.programs config.now part number before }
    ensures programs { knowledge.new.programs ≡ knowledge.old.programs }
    ensures totals { IfOk result (AreAskedTotals knowledge.old.programs config.now part number) }
    ensures low { IfOk result (λ a. a.low ≤ number) }
{
    if before.low <= u64::from(number) {
        return Ok(before);
    }
    totals_down(knowledge, config, part, number)
}

/// Asks a configuration with one number of a list's part, with which the programs have these totals. `most` are the
/// totals with the most.
fn ask_number<A: Allocator + Clone>(
    study: &Study<A>,
    entries: &Entries<'_>,
    config: &Config,
    number: u8,
    totals: &[u64],
    most: &[u64],
    found: &mut ListFound<A>,
) -> Result<(), AllocError>
    requires rows { entries.now.rows ≡ study.now.rows }
    requires number { is_between 1 (most_of (part_at entries.now.place)) number ≡ true }
    requires totals { totals.now ≡ totals_on study.now.programs
        (with_count config.now (part_at entries.now.place) number) }
    requires most { most.now ≡ totals_on study.now.programs
        (with_count config.now (part_at entries.now.place) (most_of (part_at entries.now.place))) }
    ensures asked { OnOk result
        (IsNumberAsked study.now (part_at entries.now.place) config.now number found.old found.new) }
{
    let part = entries.part();
    config.keeps_limits();
    let changes = differ(totals, most);
    found.last_change = last_change(found.last_change, changes, number);
    if let Some(grown) = entries.grown(config, number) {
        grown.keeps_limits();
        found
            .machines
            .push(new_machine(study, part, number, &grown, totals))?;
    }
    Ok(())
}

/// Asks a configuration with each number of a list's part, from the most down. Only the first number on each plateau is
/// looked up.
fn ask_list<A: Allocator + Clone>(
    knowledge: &mut Knowledge<'_, A>,
    study: &Study<A>,
    entries: &Entries<'_>,
    config: &Config,
    found: &mut ListFound<A>,
) -> Result<(), AllocError>
    requires programs { knowledge.old.programs ≡ study.now.programs }
    requires rows { entries.now.rows ≡ study.now.rows }
    ensures programs { knowledge.new.programs ≡ knowledge.old.programs }
    ensures asked { OnOk result (IsAsked study.now (part_at entries.now.place) config.now found.old found.new) }
{
    study.keeps_limits();
    let part = entries.part();
    let most = part.most();
    let with_most = totals_down(knowledge, config, part, most)?;
    let of_most = &with_most.totals[..study.programs().len()];
    let mut asked = with_most;
    for fewer in 0..most {
        let number = most - fewer;
        asked = next_totals(knowledge, config, part, number, asked)?;
        let own = &asked.totals[..study.programs().len()];
        ask_number(study, entries, config, number, own, of_most, found)?;
    }
    Ok(())
}

/// Asks a row in a list, unless an earlier row is like it there.
fn ask_if_new<A: Allocator + Clone>(
    knowledge: &mut Knowledge<'_, A>,
    study: &Study<A>,
    entries: &Entries<'_>,
    row: usize,
    found: &mut ListFound<A>,
) -> Result<(), AllocError>
    requires programs { knowledge.old.programs ≡ study.now.programs }
    requires rows { entries.now.rows ≡ study.now.rows }
    requires row { row < length study.now.rows }
    ensures programs { knowledge.new.programs ≡ knowledge.old.programs }
    ensures asked { OnOk result (IsAskedOnce study.now entries.now.place row found.old found.new) }
{
    if entries.repeats(row) {
        return Ok(());
    }
    ask_list(knowledge, study, entries, &study.rows()[row], found)
}

/// Asks a row in each list in which no earlier row is like it.
pub(crate) fn ask_row<A: Allocator + Clone>(
    knowledge: &mut Knowledge<'_, A>,
    study: &Study<A>,
    lists: &[Entries<'_>],
    row: usize,
    found: &mut Vec<ListFound<A>, A>,
) -> Result<(), AllocError>
    requires programs { knowledge.old.programs ≡ study.now.programs }
    requires lists { AreLists study.now.rows lists.now }
    requires row { row < length study.now.rows }
    requires found { length found.old.items ≡ 13 }
    ensures programs { knowledge.new.programs ≡ knowledge.old.programs }
    ensures asked { OnOk result (AreAsked study.now row found.old.items found.new.items) }
{
    for (place, entries) in lists.iter().enumerate() {
        ask_if_new(knowledge, study, entries, row, &mut found[place])?;
    }
    Ok(())
}
