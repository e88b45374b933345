//! The walk along a path, from the last step to the first.

ghost use Rattle.std.specs.Prelude.{◌≡◌, ◌<◌, ◌≤◌, ◌*◌, ◌^◌, List, length, take, All, IfOk, slice_index_or};
ghost use Rattle.tomex_rvexec.specs.declared.step.Step.{Step};
ghost use Rattle.tomex_rvexec.specs.Run.{most_steps};
ghost use Rattle.tomex_config.specs.Configuration.{Configuration};
ghost use Rattle.tomex_timing.specs.Search.{history, times_in, total_of};
ghost use Rattle.tomex_path.specs.declared.event.Holder.TheVariants.{Last};
ghost use Rattle.tomex_path.specs.Laws.{IsChain};
ghost use Rattle.tomex_path.specs.Path.{links, path_of};
ghost use Rattle.tomex_path.specs.Seen.{IsEvaluated, done_at, seen_of};
ghost use Rattle.tomex_path.specs.Within.{IsWithin};

use crate::event::Holder;
use crate::link::{Link, link_of};
use crate::note::{Note, Seen, notes_of};
use std::alloc::{AllocError, Allocator, Global};
use tomex_config::Config;
use tomex_timing::{Facts, Run, Times};

/// The step of a run at a place.
#[inline(always)]
fn seen_at(facts: &[Facts], times: &[Times], notes: &[Note], place: usize) -> Seen
    requires run { (config : Configuration) × (steps : List Step)
        × IsEvaluated config steps facts.now times.now notes.now }
    requires place { place < length times.now }
    ensures seen { (config : Configuration) (steps : List Step) (x : Step)
        → IsEvaluated config steps facts.now times.now notes.now → slice_index_or steps place x ≡ x
        → result ≡ seen_of config (history config (take place steps)) (done_at config steps place x) }
    ensures small { result.at.issue < 2 ^ 63 }
{
    Seen {
        facts: facts[place],
        at: times[place],
        previous: if place == 0 {
            0
        } else {
            times[place - 1].issue
        },
        note: notes[place],
    }
}

/// The links of a path, the last one first.
fn links_of<A: Allocator>(
    alloc: A,
    facts: &[Facts],
    times: &[Times],
    notes: &[Note],
) -> Result<Vec<Link, A>, AllocError>
    requires { (config : Configuration) × (steps : List Step)
        × IsEvaluated config steps facts.now times.now notes.now }
    ensures { IfOk result (λ v. (config : Configuration) (steps : List Step)
        → IsEvaluated config steps facts.now times.now notes.now
        → v.items ≡ links config Last (history config steps)) }
{
    let mut result = Vec::new(alloc);
    let mut by = Holder::Last;
    let count = times.len();
    for passed in 0..count {
        let place = count - 1 - passed;
        let seen = seen_at(facts, times, notes, place);
        if by.is(&seen) {
            let held = link_of(by, place as u64 + 1, &seen);
            result.push(held.link)?;
            by = held.by;
        }
    }
    Ok(result)
}

/// A run's times on a configuration, and its path.
#[derive(Drop)]
pub struct RunPath<A: Allocator = Global> {
    /// The times of its steps, in program order.
    pub times: Vec<Times, A>,
    /// The links, from the run's first cycle on.
    pub links: Vec<Link, A>,
}

/// The path of a run on a configuration, and the times that it goes through.
///
/// The work is that of evaluating the run's times, and linear in the steps. Of each step 20 bytes are kept beside its
/// times until the path is found.
pub fn path<A: Allocator + Clone, B: Allocator>(
    alloc: A,
    run: &Run<B>,
    config: &Config,
) -> Result<RunPath<A>, AllocError>
    requires few { length run.now ≤ most_steps }
    ensures times { IfOk result (λ p. p.times.items ≡ times_in config.now run.now) }
    ensures pairs { IfOk result (λ p. length p.times.items ≡ length run.now) }
    ensures bound { IfOk result (λ p. total_of p.times.items ≤ 67 * length run.now) }
    ensures exact { IfOk result (λ p. p.links.items ≡ path_of config.now (history config.now run.now)) }
    ensures cycles { IfOk result (λ p. IsChain 1 (total_of p.times.items) p.links.items) }
    ensures within { IfOk result
        (λ p. All (IsWithin (length run.now) (total_of p.times.items)) p.links.items) }
    ensures few { IfOk result (λ p. length p.links.items ≤ length run.now) }
{
    let noted = notes_of(&alloc, run.facts(), config)?;
    config.keeps_limits();
    let mut links = links_of(alloc, run.facts(), &noted.times, &noted.notes)?;
    links.reverse();
    Ok(RunPath {
        times: noted.times,
        links,
    })
}
