//! Whole runs in order, with a record of each step.

ghost use Rattle.std.specs.Prelude.{◌≡◌, ℕ, ◌+◌, ◌≤◌, [], length, IfOk, IfErr, OnOk};
ghost use Rattle.tomex_rvexec.specs.Machine.{State};
ghost use Rattle.tomex_rvexec.specs.Run.{IsRefusal, EndsWithin, Leads, start_of};
ghost use Rattle.tomex_rvexec.specs.Trace.{steps_from};

use crate::cpu::Cpu;
use crate::end::RunError;
use crate::outcome::Stepped;
use crate::step::Step;
use std::alloc::Allocator;
use tomex_image::Image;

/// Records the steps from the start of a run that ends within the limit; the ECALL or EBREAK is the last.
fn record<'a, A: Allocator>(
    cpu: &mut Cpu<'a, A>,
    limit: u32,
    steps: &mut Vec<Step, A>,
) -> Result<(), RunError>
    requires start { cpu.old ≡ start_of cpu.old.image }
    requires empty { steps.old.items ≡ [] }
    ensures ok { OnOk result (steps.new.items ≡ steps_from limit cpu.old) }
    ensures few { OnOk result (length steps.new.items ≤ limit) }
    ensures ends { OnOk result (EndsWithin cpu.old.image limit) }
    ensures err { IfErr result (λ e. IsRefusal cpu.old.image limit e) }
{
    for _done in 0..limit {
        let (step, stepped) = match cpu.record_step() {
            Ok(done) => done,
            Err(fault) => return Err(RunError::Fault(fault)),
        };
        steps.push(step)?;
        if let Stepped::Ended(_) = stepped {
            return Ok(());
        }
    }
    Err(RunError::TooLong)
}

/// The steps of a run that ends within the limit, in order; the ECALL or EBREAK is the last.
///
/// Allocates the memory's size once, and 20 bytes a step.
pub fn trace<A: Allocator + Clone>(
    alloc: A,
    image: &Image<A>,
    limit: u32,
) -> Result<Vec<Step, A>, RunError>
    ensures ok { IfOk result (λ v. v.items ≡ steps_from limit (start_of image.now)) }
    ensures few { IfOk result (λ v. length v.items ≤ limit) }
    ensures ends { IfOk result (λ v. EndsWithin image.now limit) }
    ensures err { IfErr result (λ e. IsRefusal image.now limit e) }
{
    let mut cpu = Cpu::new(alloc.clone()?, image)?;
    let mut steps = Vec::new(alloc);
    record(&mut cpu, limit, &mut steps)?;
    Ok(steps)
}
