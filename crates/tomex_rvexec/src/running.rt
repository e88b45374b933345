//! Whole runs in order.

ghost use Rattle.std.specs.Prelude.{◌≡◌, ℕ, ◌+◌, ◌≤◌, IfOk, IfErr};
ghost use Rattle.tomex_rvexec.specs.Machine.{State};
ghost use Rattle.tomex_rvexec.specs.Run.{IsEnd, IsRefusal, Leads, start_of};

use crate::cpu::Cpu;
use crate::end::{End, RunError};
use crate::outcome::Stepped;
use std::alloc::Allocator;
use tomex_image::Image;

/// Runs the image in order, for at most `limit` steps. A program that its last allowed step ends
/// has ended; one that continues after that step is too long.
///
/// Allocates the memory's size once, and nothing at each step.
pub fn run<A: Allocator>(alloc: A, image: &Image<A>, limit: u32) -> Result<End<A>, RunError>
    ensures ok { IfOk result (λ e. IsEnd image.now limit e) }
    ensures err { IfErr result (λ e. IsRefusal image.now limit e) }
{
    let mut cpu = Cpu::new(alloc, image)?;
    for steps in 0..limit {
        match cpu.step() {
            Ok(Stepped::Next) => {}
            Ok(Stepped::Ended(kind)) => return Ok(cpu.into_end(kind, steps + 1)),
            Err(fault) => return Err(RunError::Fault(fault)),
        }
    }
    Err(RunError::TooLong)
}
