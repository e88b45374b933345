//! The exploration that runs each configuration to its end.

ghost use Rattle.std.specs.Prelude.{◌≡◌, map, IfOk, IfErr};
ghost use Rattle.tomex_study.specs.Cycles.{cycles_of};
ghost use Rattle.tomex_study.specs.StudyFront.{front_of_study};
ghost use Rattle.tomex_board.specs.declared.mark.Mark.TheVariants.{Finished};
ghost use Rattle.tomex_sweep.specs.declared.outcome.SweepError.TheVariants.{Memory};

use crate::finished::front_of_finished;
use crate::outcome::{Outcome, SweepError};
use crate::runs::Runs;
use std::alloc::{AllocError, Allocator};
use tomex_board::Mark;
use tomex_study::{Gate, OpenGate, Study};

/// The marks of a study's rows, each of which is run to its end.
fn all_marks<A: Allocator + Clone, G: Gate>(
    alloc: A,
    study: &Study<A>,
    gate: &G,
) -> Result<Vec<Mark, A>, AllocError>
    ensures { IfOk result (λ marks. marks.items ≡ map Finished (cycles_of study.now)) }
{
    study.keeps_limits();
    let mut runs = Runs::new(alloc.clone()?);
    let mut marks = Vec::with_capacity(alloc, study.rows().len())?;
    for config in study.rows() {
        gate.before(0, marks.len());
        let cycles = runs.cycles(study.programs(), config)?;
        marks.push(Mark::Finished(cycles))?;
    }
    Ok(marks)
}

/// `run_all` with a gate, which is called only for worker 0.
pub fn run_all_under<A: Allocator + Clone, G: Gate>(
    alloc: A,
    study: &Study<A>,
    gate: &G,
) -> Result<Outcome<A>, SweepError>
    ensures marks { IfOk result (λ o. o.marks.items ≡ map Finished (cycles_of study.now)) }
    ensures front { IfOk result (λ o. o.front.items ≡ front_of_study study.now) }
    ensures gathered { IfOk result (λ o. o.gathered ≡ 0) }
    ensures refused { IfErr result (λ e. e ≡ Memory) }
{
    study.keeps_limits();
    gate.begins(study.rows().len());
    let marks = all_marks(alloc.clone()?, study, gate)?;
    let front = front_of_finished(alloc, study.costs(), marks.as_slice())?;
    Ok(Outcome {
        marks,
        front,
        gathered: 0,
    })
}

/// Runs each configuration to its end, on the calling thread.
pub fn run_all<A: Allocator + Clone>(alloc: A, study: &Study<A>) -> Result<Outcome<A>, SweepError>
    ensures marks { IfOk result (λ o. o.marks.items ≡ map Finished (cycles_of study.now)) }
    ensures front { IfOk result (λ o. o.front.items ≡ front_of_study study.now) }
    ensures gathered { IfOk result (λ o. o.gathered ≡ 0) }
    ensures refused { IfErr result (λ e. e ≡ Memory) }
{
    run_all_under(alloc, study, &OpenGate)
}
