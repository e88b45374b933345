//! A study with what its lists lack.

ghost use Rattle.std.specs.Prelude.{◌≡◌, ◌<◌, ◌≤◌, ◌++◌, ℕ, length, All, IfOk, OnOk};
ghost use Rattle.std.specs.List.{filter, flat_map, list_any, range_with_len};
ghost use Rattle.tomex_study.specs.Study.{DesignSpace, IsStudy};
ghost use Rattle.tomex_study.specs.StudyFront.{all_rows};
ghost use Rattle.tomex_config.specs.Parts.{part_at};
ghost use Rattle.tomex_choices.specs.Additions.{additions, has_entry, useful};
ghost use Rattle.tomex_choices.specs.Asking.{AreFound, IsFound};
ghost use Rattle.tomex_config.specs.Parts.{most_of};
ghost use Rattle.tomex_choices.specs.NewMachines.{configurations_if, grown};
ghost use Rattle.tomex_choices.specs.Reports.{list_reports, report_of};
ghost use Rattle.tomex_choices.specs.Weighed.{AreWeighed, IsWeighed, added_by, added_if};

use crate::entries::Entries;
use crate::found::ListFound;
use crate::new_machine::NewMachine;
use crate::saving::greatest_saving;
use crate::searching::all_found;
use crate::useful::{unbeaten, useful};
use std::alloc::{AllocError, Allocator, Global};
use std::marker::Model;
use std::thread::Threads;
use tomex_config::{Config, Likeness, Part};
use tomex_pareto::FrontRow;
use tomex_study::{Gate, ListReport, Saving, Study, Surveyed, front_choices, unused};
use tomex_survey::surveyed;

/// What a list lacks.
#[derive(Drop)]
pub(crate) struct WeighedList<A: Allocator> {
    /// The new machines that are of use.
    pub useful: Vec<NewMachine, A>,
    pub saving: Option<Saving>,
    pub enough: u8,
}

/// A study with its survey, and what each of its lists lacks. Contracts see it as the study, since all the rest is
/// determined by that.
#[derive(Drop)]
pub struct WeighedChoices<'s, A: Allocator = Global> {
    surveyed: Surveyed<'s, A>,
    lists: Vec<WeighedList<A>, A>,
}

impl<'s, A: Allocator> Model for WeighedChoices<'s, A> {
    ghost use Rattle.tomex_choices.specs.Reports.{list_reports, report_of};
    ghost use Rattle.tomex_choices.specs.Weighed.{AreWeighed};
    ghost use Rattle.tomex_study.specs.Study.{DesignSpace};

    ghost Value = { DesignSpace };

    ghost view = { λ w. w.surveyed };

    ghost invariant = { λ w. AreWeighed w.surveyed w.lists.items };
}

/// What the list at a place lacks, given all rows and what was found of it on them.
fn weighed_list<A: Allocator + Clone>(
    alloc: A,
    rows: &[FrontRow],
    found: ListFound<A>,
) -> Result<WeighedList<A>, AllocError>
    requires { found.last_change ≤ 16 }
    ensures { (s : DesignSpace) (place : ℕ) → IsStudy s → place < 13 → rows.now ≡ all_rows s
        → IsFound s 0 (length s.rows) place found.machines.items found.last_change
        → IfOk result (IsWeighed s (part_at place)) }
{
    let enough = found.last_change + 1;
    let unbeaten = unbeaten(alloc.clone()?, found.machines)?;
    Ok(WeighedList {
        useful: useful(alloc, rows, unbeaten.as_slice())?,
        saving: greatest_saving(rows, unbeaten.as_slice()),
        enough,
    })
}

/// What each list lacks.
fn all_weighed<A: Allocator + Clone>(
    alloc: A,
    rows: &[FrontRow],
    lists: Vec<ListFound<A>, A>,
) -> Result<Vec<WeighedList<A>, A>, AllocError>
    requires { All (λ l. l.last_change ≤ 16) lists.items }
    ensures { (s : DesignSpace) → IsStudy s → rows.now ≡ all_rows s → AreFound s 0 (length s.rows) lists.items
        → IfOk result (λ v. AreWeighed s v.items) }
{
    let mut all = Vec::with_capacity(alloc.clone()?, lists.len())?;
    for list in lists {
        all.push(weighed_list(alloc.clone()?, rows, list)?)?;
    }
    Ok(all)
}

/// Evaluates the programs on each row of a study, and on each new machine: a row's with a choice that a list lacks in
/// place of its own. Rows are divided among `workers` workers as by a survey.
pub fn weigh_choices<
    's,
    R: Threads + Sync,
    A: Allocator + Clone + Send + Sync + Drop,
    G: Gate + Sync,
>(
    rt: &R,
    alloc: A,
    study: &'s Study<A>,
    workers: usize,
    gate: &G,
) -> Result<WeighedChoices<'s, A>, AllocError>
    requires some_workers { 1 ≤ workers }
    requires few_workers { workers ≤ 32 }
    ensures { IfOk result (λ w. w ≡ study.now) }
{
    study.keeps_limits();
    gate.begins(study.rows().len());
    let found = all_found(rt, alloc.clone()?, study, workers, gate)?;
    let surveyed = surveyed(alloc.clone()?, study, found.totals)?;
    let lists = all_weighed(alloc, surveyed.rows(), found.lists)?;
    Ok(WeighedChoices { surveyed, lists })
}

/// True if one of these machines has a configuration's entry in a part's list.
fn has_entry(machines: &[NewMachine], part: Part, config: &Config) -> bool
    ensures { result ≡ list_any (has_entry part config.now) machines.now }
{
    let (number, latency) = (part.count(config), part.latency(config));
    for x in machines {
        if u64::from(x.number) == number && x.latency == latency {
            return true;
        }
    }
    false
}

/// Adds a choice that one of these machines has.
fn push_if(
    added: &mut Vec<Config>,
    part: Part,
    machines: &[NewMachine],
    choice: Option<Config>,
) -> Result<(), AllocError>
    ensures { OnOk result (added.new.items ≡ added.old.items ++ added_if part machines.now choice) }
{
    let Some(config) = choice else {
        return Ok(());
    };
    if has_entry(machines, part, &config) {
        added.push(config)?;
    }
    Ok(())
}

/// Adds the choices that a list lacks and that one of these machines has, of those that are numbers of its part in
/// place of a configuration's own.
fn push_added(
    added: &mut Vec<Config>,
    entries: &Entries<'_>,
    machines: &[NewMachine],
    config: &Config,
) -> Result<(), AllocError>
    ensures { OnOk result (added.new.items ≡ added.old.items
        ++ added_by entries.now.rows (part_at entries.now.place) machines.now config.now) }
{
    let part = entries.part();
    for fewer in 0..part.most() {
        push_if(added, part, machines, entries.grown(config, fewer + 1))?;
    }
    Ok(())
}

/// Those that are numbers of the part in place of one of these configurations' own.
fn all_added(
    heap: Global,
    entries: &Entries<'_>,
    machines: &[NewMachine],
    configs: &[Config],
) -> Result<Vec<Config>, AllocError>
    ensures { IfOk result (λ v. v.items
        ≡ flat_map (added_by entries.now.rows (part_at entries.now.place) machines.now) configs.now) }
{
    let mut added = Vec::new(heap);
    for config in configs {
        push_added(&mut added, entries, machines, config)?;
    }
    Ok(added)
}

impl<'s, A: Allocator> WeighedChoices<'s, A> {
    /// The study with its survey.
    pub fn surveyed(&self) -> &Surveyed<'s, A>
        ensures { result.now ≡ self.now }
    {
        &self.surveyed
    }

    /// The choices that the list at a place lacks and that are of use, by number; of options for each latency, in the
    /// order of the first rows that have it.
    fn additions(&self, heap: Global, place: usize) -> Result<Vec<Config>, AllocError>
        requires { place < 13 }
        ensures { IfOk result (λ v. v.items ≡ additions self.now (part_at place)) }
    {
        let (part, rows) = (Part::ALL[place], self.surveyed.study().rows());
        let entries = Entries::new(rows, place);
        let firsts = Likeness::Latency(part).firsts(heap, rows)?;
        let machines = self.lists[place].useful.as_slice();
        all_added(heap, &entries, machines, firsts.as_slice())
    }

    /// What is found out of the list at a place.
    fn report(&self, heap: Global, place: usize) -> Result<ListReport, AllocError>
        requires { place < 13 }
        ensures { IfOk result (λ l. l ≡ report_of self.now (part_at place)) }
    {
        let part = Part::ALL[place];
        Ok(ListReport {
            part,
            front: front_choices(heap, &self.surveyed, part)?,
            unused: unused(heap, &self.surveyed, part)?,
            additions: self.additions(heap, place)?,
            saving: self.lists[place].saving,
            enough: self.lists[place].enough,
        })
    }

    /// What is found out of each list, in the order of the parts.
    #[tactic(auto, unfolding(crate::specs::Reports::list_reports))]
    pub fn reports(&self, heap: Global) -> Result<Vec<ListReport>, AllocError>
        ensures { IfOk result (λ v. v.items ≡ list_reports self.now) }
    {
        let mut reports = Vec::new(heap);
        for place in 0..Part::ALL.len() {
            reports.push(self.report(heap, place)?)?;
        }
        Ok(reports)
    }
}
