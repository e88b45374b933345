//! Excerpts of runs.

ghost use Rattle.std.specs.Prelude.{◌≡◌, ◌-◌, ◌<◌, ◌≤◌, IfErr, IfOk, IsErrOf, drop, length, take};
ghost use Rattle.tomex_rvexec.specs.Run.{most_steps};
ghost use Rattle.tomex_run_views.specs.Excerpt.{AreTimesOf, HasNoExcerpt, IsExcerpt, IsExcerptOf, excerpt_with};

use crate::excerpt_error::ExcerptError;
use std::alloc::Allocator;
use std::marker::Model;
use tomex_config::Config;
use tomex_rvexec::Step;
use tomex_timing::evaluate::times;
use tomex_timing::{Run, Times};

/// Neighbouring steps of a run, with their times on a configuration.
#[derive(Drop)]
pub struct Excerpt<'a, A: Allocator> {
    /// The number of the first step; the run's first step is number 1.
    number: u32,
    steps: &'a [Step],
    /// The times of all steps of the run.
    run_times: Vec<Times, A>,
    /// The most steps that are shown.
    count: usize,
}

impl<'a, A: Allocator> Model for Excerpt<'a, A> {
    ghost use Rattle.std.specs.Prelude.{◌-◌, ◌≤◌, drop, length, take};
    ghost use Rattle.tomex_run_views.specs.Excerpt.{IsExcerpt, TimedSteps};

    ghost Value = { TimedSteps };

    ghost view = { λ e. record {
      number = e.number;
      steps = e.steps.now;
      times = take e.count (drop (e.number - 1) e.run_times.items);
    } };

    ghost invariant = { λ e. (e.number - 1 ≤ length e.run_times.items) × IsExcerpt (record {
      number = e.number;
      steps = e.steps.now;
      times = take e.count (drop (e.number - 1) e.run_times.items);
    }) };
}

/// At most `count` of these items, after the first `skipped`.
fn part_of<T>(items: &[T], skipped: usize, count: usize) -> &[T]
    requires { skipped ≤ length items.now }
    ensures { result.now ≡ take count (drop skipped items.now) }
{
    let rest = &items[skipped..];
    let end = count.min(rest.len());
    &rest[..end]
}

impl<'a, A: Allocator + Clone> Excerpt<'a, A> {
    /// At most `count` steps of a run on a configuration, from step `number` on; the first step is
    /// number 1. All steps of the run are timed.
    pub fn new(
        alloc: &A,
        run: &'a Run<A>,
        config: &Config,
        number: u32,
        count: u32,
    ) -> Result<Excerpt<'a, A>, ExcerptError>
        requires few { length run.now ≤ most_steps }
        requires number { 0 < number }
        ensures steps { IfOk result (λ e. IsExcerptOf config.now run.now number count e) }
        ensures refused { IfErr result (λ error. HasNoExcerpt run.now number error) }
        ensures no_step { length run.now < number → IsErrOf result ExcerptError.NoSuchStep }
    {
        let steps = run.steps();
        if steps.len() < number as usize {
            return Err(ExcerptError::NoSuchStep);
        }
        let run_times = times(alloc.clone()?, steps, config)?;
        let count = count as usize;
        Ok(Excerpt {
            number,
            steps: part_of(steps, number as usize - 1, count),
            run_times,
            count,
        })
    }
}

impl<'a, A: Allocator> Excerpt<'a, A> {
    /// The first steps of a run, at most `count` of them, given the times of all its steps. Allocates
    /// nothing.
    pub fn of_first(run: &'a Run<A>, run_times: Vec<Times, A>, count: u32) -> Excerpt<'a, A>
        requires few { length run.now ≤ most_steps }
        requires times { AreTimesOf run.now run_times.items }
        ensures { result ≡ excerpt_with run.now run_times.items 1 count }
    {
        let count = count as usize;
        Excerpt {
            number: 1,
            steps: part_of(run.steps(), 0, count),
            run_times,
            count,
        }
    }

    /// A law: there is a time for each step, at most 262,144 of them, and their numbers and cycles are below 2^32.
    pub fn keeps_limits(&self)
        ensures { IsExcerpt self.now }
    {
        let _number = self.number;
    }

    /// The number of the first step.
    pub fn number(&self) -> u64
        ensures { result ≡ self.now.number }
    {
        u64::from(self.number)
    }

    /// The steps, in program order.
    pub fn steps(&self) -> &[Step]
        ensures { result.now ≡ self.now.steps }
    {
        self.steps
    }

    /// The times of each step.
    pub fn times(&self) -> &[Times]
        ensures { result.now ≡ self.now.times }
    {
        part_of(
            self.run_times.as_slice(),
            self.number as usize - 1,
            self.count,
        )
    }
}
