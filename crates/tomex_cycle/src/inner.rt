//! The state that a cycle changes, and the one call that changes it, which makes a cycle and counts
//! it.

ghost use Rattle.std.specs.Prelude.{ℕ, List, ◌≡◌, ◌≤◌, ◌<◌, ◌+◌, ◌^◌, IfErr, IfOk, if◌then◌else◌};
ghost use Rattle.tomex_image.specs.Image.{Loaded};
ghost use Rattle.tomex_timing.specs.Tables.{tables_of};
ghost use Rattle.tomex_timing.specs.declared.times.Done.{Done};
ghost use Rattle.tomex_cycle.specs.Run.{IsUpTo};
ghost use Rattle.tomex_cycle.specs.Views.{clocks, ShowsStations, ShowsRegisters};
ghost use Rattle.tomex_cycle.specs.Phases.{is_done};
ghost use Rattle.tomex_cycle.specs.Finishes.{IsTimetableOf};
ghost use Rattle.tomex_cycle.specs.CycleOutcome.{progress_of};
ghost use Rattle.tomex_cycle.specs.Inner.{GivesEnd, IsFresh, MakesCycle};
ghost use Rattle.tomex_cycle.specs.declared.progress.Progress.{Progress};

use crate::activity::{Activity, is_settled_after};
use crate::fetch::Fetch;
use crate::finishes::Finishes;
use crate::phases;
use crate::progress::CycleOutcome;
use std::alloc::{AllocError, Allocator, Global};
use tomex_config::Config;
use tomex_image::Image;
use tomex_rvexec::{End, Fetcher, Memory, initial_sp};
use tomex_tags::{Pools, RegStatus};
use tomex_timing::Tables;

/// The way in which a cycle is made.
#[derive(Clone, Copy)]
pub(crate) enum Making {
    /// By its phases.
    ByPhases,
    /// It is only counted. The caller guarantees that only results finish in this cycle, all of which then wait for a
    /// common data bus, and has advanced the finishes past it.
    CountOnly,
}

/// Stations, registers, memory, where the next instruction comes from, and how many cycles were made.
#[derive(Drop)]
pub struct Inner<A: Allocator = Global> {
    pools: Pools,
    registers: RegStatus,
    memory: Memory<A>,
    fetch: Fetch,
    /// The number of instructions that have issued.
    issued: u32,
    /// The number of cycles that were made.
    cycles_made: u64,
    /// The activity of the cycle that is being made.
    ///
    /// A field and not a local, so that a cycle doesn't carry a flag of each phase to its end.
    activity: Activity,
}

impl<A: Allocator> Inner<A> {
    /// Makes a cycle by its phases and gives its outcome, or only counts a cycle and gives `Active`. If the program
    /// faults or doesn't end within the limit, the contract promises nothing about stations, registers and memory, only
    /// that the cycle is counted and that the timetable of finishes stays valid while the program runs.
    ///
    /// Contracts see the fetcher as its image. 2^41 leaves room above the bound of 2^40 on a machine's cycles.
    ///
    /// The only call that changes the state, so that every change is counted. Inlined, so that each of its two calls
    /// has only what its kind of cycle needs.
    #[inline(always)]
    pub(crate) fn make_cycle<B: Allocator>(
        &mut self,
        how: Making,
        finishes: &mut Finishes,
        fetcher: &mut Fetcher<'_, B>,
        config: &Config,
        cycle: u64,
    ) -> CycleOutcome
        requires low { cycle < 2 ^ 41 }
        requires fits { self.old.cycles_made < 2 ^ 41 }
        requires timetable { how ≡ Making.ByPhases → IsTimetableOf self.old.pools.slots cycle finishes.old }
        ensures cycles_made { self.new.cycles_made ≡ self.old.cycles_made + 1 }
        ensures makes { how ≡ Making.ByPhases
            → MakesCycle fetcher.old config.now cycle self.old result self.new }
        ensures timetable { how ≡ Making.ByPhases → progress_of result ≡ Progress.Running
            → IsTimetableOf self.new.pools.slots (cycle + 1) finishes.new }
        ensures none_unsent { how ≡ Making.ByPhases → result ≡ CycleOutcome.Settled
            → finishes.new.unsent ≡ 0 }
        ensures count_only { how ≡ Making.CountOnly → (result ≡ CycleOutcome.Active)
            × (finishes.new ≡ finishes.old)
            × (self.new ≡ record self.old { cycles_made = self.old.cycles_made + 1 }) }
        ensures same { fetcher.new ≡ fetcher.old }
    {
        self.cycles_made += 1;
        if let Making::CountOnly = how {
            return CycleOutcome::Active;
        }
        self.activity = Activity::Nothing;
        let starts = phases::start(&mut self.pools, &mut self.memory, finishes, config, cycle);
        if let Some(fault) = starts.fault {
            return CycleOutcome::Faulted(fault);
        }
        self.activity.raise_to(Activity::Starts, starts.any);
        let addressed = phases::address(&mut self.pools, cycle);
        self.activity.raise_to(Activity::More, addressed);
        match phases::issue(
            &mut self.pools,
            &mut self.registers,
            &mut self.fetch,
            &mut self.issued,
            fetcher,
            config,
        ) {
            Ok(made) => self.activity.raise_to(Activity::More, made),
            Err(fault) => return CycleOutcome::Faulted(fault),
        }
        let ended = phases::end(
            &mut self.pools,
            &mut self.registers,
            &mut self.fetch,
            finishes,
            config,
            cycle,
        );
        self.pools.keeps_places();
        let settled = is_settled_after(self.activity, ended, &self.pools);
        CycleOutcome::after(self.is_over(), settled)
    }

    /// True if nothing is left to issue or to end.
    fn is_over(&self) -> bool
        ensures { result ≡ is_done self.now.fetch self.now.pools.busy }
    {
        match self.fetch {
            Fetch::Stopped(..) => self.pools.busy() == 0,
            _ => false,
        }
    }

    /// The state before the first cycle of an image, over a memory that holds its bytes.
    fn at_start<B: Allocator>(memory: Memory<A>, image: &Image<B>) -> Self
        requires { memory ≡ record { base = image.now.window.base; bytes = image.now.memory } }
        ensures { IsFresh image.now result }
    {
        Inner {
            pools: Pools::new(),
            registers: RegStatus::new(initial_sp(image.window())),
            memory,
            fetch: Fetch::At(image.entry()),
            issued: 0,
            cycles_made: 0,
            activity: Activity::Nothing,
        }
    }

    /// The state before the first cycle of an image.
    pub fn new<B: Allocator>(alloc: A, image: &Image<B>) -> Result<Self, AllocError>
        ensures { IfOk result (λ c. IsFresh image.now c) }
    {
        let mut memory = Memory::new(0, Vec::new(alloc));
        memory.reload(image.window().base(), image.memory())?;
        Ok(Inner::at_start(memory, image))
    }

    /// A new state before the first cycle of this image, made in the memory of the old one if that is enough. The old
    /// one is returned unchanged if it isn't and there is no memory for more.
    pub fn restart<B: Allocator>(self, image: &Image<B>) -> Result<Self, Self>
        ensures fresh { IfOk result (λ c. IsFresh image.now c) }
        ensures err { IfErr result (λ c. c ≡ self) }
    {
        let Inner {
            pools,
            registers,
            mut memory,
            fetch,
            issued,
            cycles_made,
            activity,
        } = self;
        if memory.reload(image.window().base(), image.memory()).is_ok() {
            return Ok(Inner::at_start(memory, image));
        }
        Err(Inner {
            pools,
            registers,
            memory,
            fetch,
            issued,
            cycles_made,
            activity,
        })
    }

    /// The number of cycles that were made.
    pub fn cycles_made(&self) -> u64
        ensures { result ≡ self.now.cycles_made }
    {
        self.cycles_made
    }

    /// The stations.
    #[inline(always)]
    pub fn pools(&self) -> &Pools
        ensures { result.now ≡ self.now.pools }
    {
        &self.pools
    }

    /// The tables after a cycle.
    pub fn tables(&self, cycle: u64) -> Tables
        ensures cycle { result.cycle ≡ cycle }
        ensures shown { (i : Loaded) (h : List Done) (config : _)
            → IsUpTo i config cycle h
            → ShowsStations i (clocks cycle cycle cycle) h self.now.pools
            → ShowsRegisters i cycle h self.now.registers → result ≡ tables_of cycle h }
    {
        let busy = self.pools.busy_entries();
        Tables::new(cycle, busy, self.registers.tags)
    }

    /// The end of the run.
    pub fn into_end(self) -> End<A>
        ensures ends { GivesEnd self result }
    {
        let (kind, pc) = self.fetch.stop();
        End {
            kind,
            pc,
            steps: self.issued,
            regs: self.registers.values,
            memory: self.memory,
        }
    }
}
