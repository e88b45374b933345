//! A program of a study: an image that is known to end.

ghost use Rattle.std.specs.Prelude.{◌≡◌, ◌≤◌, length, IfOk, IfErr, string_bytes};
ghost use Rattle.tomex_rvexec.specs.Run.{most_steps, start_of};
ghost use Rattle.tomex_rvexec.specs.Trace.{steps_from};
ghost use Rattle.tomex_study.specs.Watch.{IsWatch};
ghost use Rattle.tomex_study.specs.Program.{IsProgram, IsUnfit, refusal_of, workload};
ghost use Rattle.tomex_study.specs.declared.program.ProgramError.TheVariants as unfit;

use crate::watch::WatchRange;
use std::alloc::{AllocError, Allocator, Global};
use std::marker::Model;
use thiserror::Error;
use tomex_image::Image;
use tomex_rvexec::{Fault, RunError, Step, trace};
use tomex_timing::Run;

/// A program whose run in order ends within its limit of 1 to 262,144 steps. At most 8 ranges of
/// its memory are watched, each inside it, with at most 4,096 bytes together. Its cycles are
/// weighted 1 to 1,000.
#[derive(Drop)]
pub struct Program<A: Allocator = Global> {
    name: String<A>,
    image: Image<A>,
    limit: u32,
    watch: Vec<WatchRange, A>,
    weight: u32,
    /// Its run, whose steps are read once for all the configurations that it is timed on.
    run: Run<A>,
}

impl<A: Allocator> Model for Program<A> {
    ghost use Rattle.std.specs.Prelude.{string_bytes};
    ghost use Rattle.tomex_study.specs.Program.{Workload, workload, IsProgram, AreSteps};

    ghost Value = { Workload };

    ghost view = { λ p.
        workload (string_bytes p.name) p.image p.limit p.watch.items p.weight };

    ghost invariant = { λ p.
        IsProgram (workload (string_bytes p.name) p.image p.limit p.watch.items p.weight)
        × AreSteps p.image p.limit p.run };
}

/// Why an image can't be a program of a study.
#[derive(Clone, Copy, Debug, Drop, Error, PartialEq, Eq)]
pub enum ProgramError {
    /// An instruction of its run can't be carried out.
    #[error("fault: {0}")]
    Fault(Fault),
    /// Its run neither ends nor faults within the limit.
    #[error("too long")]
    TooLong,
    /// Out of memory for its run.
    #[error("out of memory")]
    Memory,
}

impl From<RunError> for ProgramError {
    ghost from_gives = { λ error e. refusal_of e ≡ error };

    fn from(error: RunError) -> Self {
        match error {
            RunError::Fault(fault) => ProgramError::Fault(fault),
            RunError::TooLong => ProgramError::TooLong,
            RunError::Memory => ProgramError::Memory,
        }
    }
}

impl From<AllocError> for ProgramError {
    ghost from_gives = { λ error e. e ≡ unfit.Memory };

    fn from(_error: AllocError) -> Self {
        ProgramError::Memory
    }
}

impl<A: Allocator + Clone> Program<A> {
    /// The program of this image, which is run to test that it ends. The run allocates as much
    /// memory as the image has, and 68 bytes a step, which the program keeps.
    pub fn new(
        alloc: A,
        name: String<A>,
        image: Image<A>,
        limit: u32,
        watch: Vec<WatchRange, A>,
        weight: u32,
    ) -> Result<Program<A>, ProgramError>
        requires some_steps { 1 ≤ limit }
        requires few_steps { limit ≤ most_steps }
        requires watch { IsWatch image.window watch.items }
        requires some_weight { 1 ≤ weight }
        requires most_weight { weight ≤ 1000 }
        ensures parts { IfOk result
            (λ p. p ≡ workload (string_bytes name) image limit watch.items weight) }
        ensures program { IfOk result (λ p. IsProgram p) }
        ensures unfit { IfErr result (λ e. IsUnfit image limit e) }
    {
        let steps = trace(alloc.clone()?, &image, limit)?;
        let run = Run::new(alloc, steps)?;
        Ok(Program {
            name,
            image,
            limit,
            watch,
            weight,
            run,
        })
    }
}

impl<A: Allocator> Program<A> {
    /// A law: it ends within its limit, its watched ranges lie in its memory, and its weight is 1 to 1,000.
    pub fn keeps_limits(&self)
        ensures { IsProgram self.now }
    {
        let _limit = self.limit;
    }

    /// Its name in the study.
    pub fn name(&self) -> &str
        ensures value { result.now ≡ self.now.name }
    {
        self.name.as_str()
    }

    /// Its memory before it runs.
    pub fn image(&self) -> &Image<A>
        ensures value { result.now ≡ self.now.image }
    {
        &self.image
    }

    /// The most steps that it may make. It makes no more.
    pub fn limit(&self) -> u32
        ensures value { result ≡ self.now.limit }
    {
        self.limit
    }

    /// The ranges of its memory that a report shows at its end.
    pub fn watch(&self) -> &[WatchRange]
        ensures value { result.now ≡ self.now.watch }
    {
        self.watch.as_slice()
    }

    /// The factor by which its cycles count.
    pub fn weight(&self) -> u32
        ensures value { result ≡ self.now.weight }
        ensures range { (1 ≤ result) × (result ≤ 1000) }
    {
        self.weight
    }

    /// The steps of its run, in program order; the one that ends the program is the last.
    pub fn steps(&self) -> &[Step]
        ensures steps { result.now ≡ steps_from self.now.limit (start_of self.now.image) }
        ensures few { length result.now ≤ most_steps }
    {
        self.run.steps()
    }

    /// Its run, with what its timing on a configuration depends on.
    pub fn run(&self) -> &Run<A>
        ensures steps { result.now ≡ steps_from self.now.limit (start_of self.now.image) }
        ensures few { length result.now ≤ most_steps }
    {
        &self.run
    }
}
