//! The machine.

ghost use Rattle.std.specs.Prelude.{◌≡◌, ◌<◌, ◌≤◌, ◌+◌, ◌^◌, IfErr, IfOk, true};
ghost use Rattle.tomex_rvexec.specs.Run.{IsEnd, most_steps};
ghost use Rattle.tomex_timing.specs.Tables.{tables_of};
ghost use Rattle.tomex_cycle.specs.Run.{EndsWithinLimit};
ghost use Rattle.tomex_timing.specs.Run.{run_of};
ghost use Rattle.tomex_cycle.specs.Advancing.{AdvancesTo};
ghost use Rattle.tomex_cycle.specs.Events.{GoesOn};
ghost use Rattle.tomex_cycle.specs.Seen.{IsInStep, before_first_cycle, is_end, seen, seen_after};

use crate::finishes::Finishes;
use crate::inner::{Inner, Making};
use crate::progress::{CycleOutcome, Progress};
use crate::skipping::skip_quiet;
use std::alloc::{AllocError, Allocator, Global};
use std::marker::Model;
use tomex_config::Config;
use tomex_image::Image;
use tomex_rvexec::{End, Fetcher};
use tomex_timing::Tables;

/// The cycle of a machine that has made none.
const BEFORE_THE_FIRST: u64 = 0;

/// A Tomasulo machine that runs an image.
#[derive(Drop)]
pub struct Machine<'a, A: Allocator = Global> {
    /// First, so that what every cycle reads lies a short way from the machine's address.
    inner: Inner<A>,
    finishes: Finishes,
    fetcher: Fetcher<'a, A>,
    config: Config,
    cycle: u64,
    status: Progress,
}

impl<'a, A: Allocator> Model for Machine<'a, A> {
    ghost use Rattle.std.specs.Prelude.{◌≤◌, ◌+◌};
    ghost use Rattle.tomex_cycle.specs.Seen.{Machine};
    ghost use Rattle.tomex_cycle.specs.Sound.{HasTimetableWhileRunning, IsSound};

    ghost Value = { Machine };

    ghost view = { λ m. record {
      image = m.fetcher;
      config = m.config;
      cycle = m.cycle;
      status = m.status;
      cycles_made = m.inner.cycles_made;
    } };

    ghost invariant = { λ m.
        IsSound m.fetcher m.config m.cycle m.status m.inner × (m.inner.cycles_made ≤ m.cycle)
        × HasTimetableWhileRunning m.status m.inner.pools.slots (m.cycle + 1) m.finishes };
}

impl<'a, A: Allocator> Machine<'a, A> {
    /// The machine of an image and a configuration, before the first cycle.
    pub fn new(alloc: A, image: &'a Image<A>, config: &Config) -> Result<Self, AllocError>
        ensures start { IfOk result (λ m. seen m ≡ before_first_cycle image.now config.now) }
        ensures none_made { IfOk result (λ m. m.cycles_made ≡ 0) }
    {
        config.keeps_limits();
        image.fills_its_window();
        Ok(Machine {
            fetcher: Fetcher::new(image),
            config: *config,
            cycle: BEFORE_THE_FIRST,
            status: Progress::Running,
            finishes: Finishes::new(),
            inner: Inner::new(alloc, image)?,
        })
    }

    /// A machine of this image and this configuration, before the first cycle, made in the memory of this one if that
    /// is enough. If more is refused, this one comes back as it was.
    pub fn restart(self, image: &'a Image<A>, config: &Config) -> Result<Self, Self>
        ensures start { IfOk result (λ m. seen m ≡ before_first_cycle image.now config.now) }
        ensures none_made { IfOk result (λ m. m.cycles_made ≡ 0) }
        ensures err { IfErr result (λ m. m ≡ self.entry) }
    {
        config.keeps_limits();
        image.fills_its_window();
        let Machine {
            inner,
            finishes,
            fetcher,
            config: old_config,
            cycle,
            status,
        } = self;
        match inner.restart(image) {
            Ok(inner) => Ok(Machine {
                inner,
                finishes: Finishes::new(),
                fetcher: Fetcher::new(image),
                config: *config,
                cycle: BEFORE_THE_FIRST,
                status: Progress::Running,
            }),
            Err(inner) => Err(Machine {
                inner,
                finishes,
                fetcher,
                config: old_config,
                cycle,
                status,
            }),
        }
    }

    /// Makes one cycle. Once the program has ended or faulted it changes nothing.
    pub fn tick(&mut self) -> Progress
        requires { self.old.cycle < 2 ^ 40 }
        ensures answer { result ≡ self.new.status }
        ensures advances { AdvancesTo (self.old.cycle + 1) self.old self.new }
    {
        self.advance(self.cycle + 1)
    }

    /// Makes one cycle, skips the quiet ones after it, and counts the next one too if only results finish in it. Goes
    /// no further than `to`.
    fn go_on(&mut self, to: u64) -> Progress
        requires running { self.old.status ≡ Progress.Running }
        requires ahead { self.old.cycle < to }
        requires low { to ≤ 2 ^ 40 }
        ensures answer { result ≡ self.new.status }
        ensures image { self.new.image ≡ self.old.image }
        ensures config { self.new.config ≡ self.old.config }
        ensures least { self.old.cycle < self.new.cycle }
        ensures most { self.new.cycle ≤ to }
        ensures ends { EndsWithinLimit self.old.image
            → seen self.new ≡ seen_after self.old.image self.old.config self.new.cycle }
        ensures goes { EndsWithinLimit self.old.image
            → GoesOn (run_of self.old.config self.old.image) to self.old.cycle self.new.cycle
            self.old.cycles_made self.new.cycles_made }
    {
        let next = self.cycle + 1;
        match self.inner.make_cycle(
            Making::ByPhases,
            &mut self.finishes,
            &mut self.fetcher,
            &self.config,
            next,
        ) {
            CycleOutcome::Active => {
                self.cycle = next;
                Progress::Running
            }
            CycleOutcome::Settled => {
                self.cycle = skip_quiet(
                    &mut self.inner,
                    &mut self.finishes,
                    &mut self.fetcher,
                    &self.config,
                    next,
                    to,
                );
                Progress::Running
            }
            over => {
                self.cycle = next;
                self.status = over.progress();
                self.status
            }
        }
    }

    /// A law: a machine whose program ends is the one that has gone on to its cycle from the start.
    fn keeps_step(&self)
        ensures { IsInStep self.now }
    {
        let _cycle = self.cycle;
    }

    /// Makes cycles, and skips quiet ones, until the cycle is `to` or the machine ends or faults.
    ///
    /// The only loop that makes cycles: the compiler inlines a cycle here, and nothing of the callers. It returns
    /// nothing, since a result would occupy a register throughout.
    #[inline(never)]
    fn run_to(&mut self, to: u64)
        requires running { self.old.status ≡ Progress.Running }
        requires low { to ≤ 2 ^ 40 }
        ensures { AdvancesTo to self.old self.new }
    {
        self.keeps_step();
        while self.cycle < to {
            match self.go_on(to) {
                Progress::Running => {}
                _ => return,
            }
        }
    }

    /// Goes on to cycle `to`, or to the program's end if that comes first. How many quiet cycles are made on the way,
    /// and not skipped, `AdvancesTo` bounds. A machine that is there already, or has ended or faulted, stays as it
    /// is. Of a program that doesn't end within the limit only how far the machine may go is promised.
    ///
    /// The bound of 2^40 is far above the 17,563,648 cycles that a program within the limit may take, and far enough
    /// below 2^64 that no sum of cycles overflows.
    pub fn advance(&mut self, to: u64) -> Progress
        requires { to ≤ 2 ^ 40 }
        ensures answer { result ≡ self.new.status }
        ensures advances { AdvancesTo to self.old self.new }
    {
        if let Progress::Running = self.status {
            self.run_to(to);
        }
        self.status
    }

    /// The cycle that the machine has reached, made or skipped.
    pub fn cycle(&self) -> u64
        ensures value { result ≡ self.now.cycle }
        ensures ends { IsInStep self.now }
    {
        self.cycle
    }

    /// How many cycles were made. The others were quiet, and skipped.
    pub fn worked(&self) -> u64
        ensures { result ≡ self.now.cycles_made }
    {
        self.inner.cycles_made()
    }

    /// True if the program has ended, and so has each of its instructions.
    pub fn ended(&self) -> bool
        ensures value { result ≡ is_end self.now.status }
    {
        matches!(self.status, Progress::Ended)
    }

    /// The busy stations and the register status.
    pub fn tables(&self) -> Tables
        ensures cycle { result.cycle ≡ self.now.cycle }
        ensures ends { EndsWithinLimit self.now.image
            → result ≡ tables_of self.now.cycle (run_of self.now.config self.now.image) }
    {
        self.inner.tables(self.cycle)
    }

    /// The end of the run: its kind, pc, number of steps, registers and memory.
    pub fn finish(self) -> End<A>
        requires { is_end self.status ≡ true }
        ensures ends { EndsWithinLimit self.entry.image → IsEnd self.entry.image most_steps result }
    {
        self.inner.into_end()
    }
}
