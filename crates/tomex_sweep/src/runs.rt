//! The runs of programs on configurations, one after another, by one machine.

ghost use Rattle.std.specs.Prelude.{◌≡◌, ◌≤◌, length, IfOk, All, None};
ghost use Rattle.tomex_timing.specs.Run.{total};
ghost use Rattle.tomex_cycle.specs.Seen.{before_first_cycle, seen};
ghost use Rattle.tomex_study.specs.Program.{IsProgram};
ghost use Rattle.tomex_study.specs.Cycles.{cycles_on};

use std::alloc::{AllocError, Allocator};
use tomex_config::Config;
use tomex_cycle::Machine;
use tomex_image::Image;
use tomex_study::Program;

/// The most cycles that a program can take: 67 for each of 262,144 steps.
pub const MOST_CYCLES: u64 = 17_563_648;

/// Runs that share memory: the machine of one run is kept, and the next one is made in its memory.
#[derive(Drop)]
pub struct Runs<'s, A: Allocator> {
    alloc: A,
    machine: Option<Machine<'s, A>>,
}

impl<'s, A: Allocator + Clone> Runs<'s, A> {
    /// Before the first run. Allocates nothing.
    pub fn new(alloc: A) -> Runs<'s, A>
        ensures alloc { result.alloc ≡ alloc }
        ensures none { result.machine ≡ None }
    {
        Runs {
            alloc,
            machine: None,
        }
    }

    /// The cycles of a configuration: each program is run to its end.
    pub fn cycles(&mut self, programs: &'s [Program<A>], config: &Config) -> Result<u64, AllocError>
        requires few { length programs.now ≤ 8 }
        requires ends { All IsProgram programs.now }
        ensures { IfOk result (λ n. n ≡ cycles_on programs.now config.now) }
    {
        config.keeps_limits();
        let mut cycles = 0;
        for program in programs {
            cycles += u64::from(program.weight()) * self.total(program, config)?;
        }
        Ok(cycles)
    }

    /// The cycles of one program.
    fn total(&mut self, program: &'s Program<A>, config: &Config) -> Result<u64, AllocError>
        ensures { IfOk result (λ n. n ≡ total config.now program.now.image) }
    {
        config.keeps_limits();
        program.keeps_limits();
        let mut machine = self.machine_of(program.image(), config)?;
        machine.advance(MOST_CYCLES);
        let total = machine.cycle();
        self.machine = Some(machine);
        Ok(total)
    }

    /// A machine before its first cycle, in the memory of the last one if that is enough. If out of
    /// memory, the last one is kept.
    fn machine_of(
        &mut self,
        image: &'s Image<A>,
        config: &Config,
    ) -> Result<Machine<'s, A>, AllocError>
        ensures { IfOk result (λ m. seen m ≡ before_first_cycle image.now config.now) }
    {
        let Some(machine) = self.machine.take() else {
            return Ok(Machine::new(self.alloc.clone()?, image, config)?);
        };
        match machine.restart(image, config) {
            Ok(machine) => Ok(machine),
            Err(machine) => {
                self.machine = Some(machine);
                Err(AllocError)
            }
        }
    }
}
