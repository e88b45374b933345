//! The whole run, by its stretches.

ghost use Rattle.std.specs.Prelude.{◌≡◌, ◌+◌, ◌*◌, ◌/◌, ◌≤◌, ◌<◌, ◌≢◌, ℕ, [], Result, Err, IfErr, IfOk, IsTrue};
ghost use Rattle.std.specs.Prelude.{OnOk, length, replicate};
ghost use Rattle.tomex_samples.specs.declared.stretches.Stretches.{Stretches};
ghost use Rattle.tomex_cut.specs.Part.{most_part};
ghost use Rattle.tomex_image.specs.Window.{IsWindow};
ghost use Rattle.tomex_samples.specs.declared.error.PartsError.{PartsError};
ghost use Rattle.tomex_samples.specs.Stretches.{length_by, most_stretches, run_length};
ghost use Rattle.tomex_samples.specs.Tally.{HasStepped};
ghost use Rattle.tomex_samples.specs.Tallied.{IsPass};
ghost use Rattle.tomex_samples.specs.Uses.{AreWordsFor};
ghost use Rattle.tomex_rvexec.specs.declared.step.Step.{Step};
ghost use Rattle.tomex_rvexec.specs.Flow.{IsState};
ghost use Rattle.tomex_rvexec.specs.Machine.{State, holds, step_of};
ghost use Rattle.tomex_rvexec.specs.Run.{start_of};

use crate::error::PartsError;
use crate::stretches::Stretches;
use crate::tally::Tally;
use crate::uses::LastUses;
use std::alloc::Allocator;
use tomex_cut::Follower;
use tomex_image::Image;
use tomex_rvexec::{Cpu, Fault, FaultKind, Stepped};

/// The most stretches of a run.
const MOST_STRETCHES: u32 = 16_384;

/// The steps between two reports of how far the run is: some milliseconds.
const PACE: u32 = 1_048_576;

/// The word of the next step's pc, which must lie in memory.
#[tactic(auto, unfolding(tomex_rvexec::specs::Machine::step_of))]
fn next_word<'a, A: Allocator + Clone>(
    cpu: &Cpu<'a, A>,
    uses: &LastUses<A>,
) -> Result<usize, PartsError>
    requires state { IsState cpu.now }
    requires window { IsWindow cpu.now.image.window.base cpu.now.image.window.size }
    requires words { AreWordsFor cpu.now uses.now.base uses.now.numbers.items }
    ensures inside { IfOk result (λ w. w < length uses.now.numbers.items) }
    ensures at { IfOk result (λ w. cpu.now.pc ≡ uses.now.base + 4 * w) }
    ensures holds { IfOk result (λ w. IsTrue (holds cpu.now cpu.now.pc 4)) }
    ensures err { IfErr result (λ e. (rest : State → Result ℕ PartsError)
        → length_by (step_of cpu.now) cpu.now rest ≡ Err e) }
{
    let pc = cpu.pc();
    match uses.word_of(u64::from(pc)) {
        Some(word) => Ok(word),
        None => Err(PartsError::Fault(Fault {
            kind: FaultKind::Fetch,
            pc,
        })),
    }
}

/// Carries out the step of this number, and notes which words it uses; true if it ends the run.
fn take_step<'a, A: Allocator + Clone>(
    cpu: &mut Cpu<'a, A>,
    uses: &mut LastUses<A>,
    number: u32,
) -> Result<bool, PartsError>
    ensures ok { IfOk result (λ last. (x : Step)
        × HasStepped cpu.old x last cpu.new uses.old.base number uses.old.numbers.items uses.new.numbers.items) }
    ensures base { uses.new.base ≡ uses.old.base }
    ensures count { length uses.new.numbers.items ≡ length uses.old.numbers.items }
    ensures err { IfErr result (λ e. (rest : State → Result ℕ PartsError)
        → length_by (step_of cpu.old) cpu.old rest ≡ Err e) }
{
    let (step, stepped) = match cpu.record_step() {
        Ok(taken) => taken,
        Err(fault) => return Err(PartsError::Fault(fault)),
    };
    uses.mark_step(&step, number);
    Ok(matches!(stepped, Stepped::Ended(_)))
}

/// Carries out the whole run from its start on, and tallies its stretches. `follower` is called after every million
/// steps, with how many there are at most.
fn tally_run<'a, A: Allocator + Clone, F: Follower>(
    alloc: &A,
    image: &Image<A>,
    steps: u32,
    follower: &F,
    cpu: &mut Cpu<'a, A>,
    uses: &mut LastUses<A>,
    tally: &mut Tally<A>,
) -> Result<(), PartsError>
    requires steps { (1 ≤ steps) × (steps ≤ most_part) }
    requires start { cpu.old ≡ start_of image.now }
    requires base { uses.old.base ≡ image.now.window.base }
    requires unused { uses.old.numbers.items ≡ replicate (image.now.window.size / 4) 0 }
    requires current { tally.old.current ≡ 0 }
    requires counts { tally.old.counts.numbers.items ≡ replicate (image.now.window.size / 4) 0 }
    requires words { tally.old.counts.words.items ≡ [] }
    requires rows { tally.old.rows.items ≡ [] }
    requires parts { tally.old.ends.parts.items ≡ [] }
    requires waiting { tally.old.ends.waiting.items ≡ [] }
    ensures ok { OnOk result ((r : Stretches A) → r.steps ≡ steps → r.words ≡ length tally.new.counts.numbers.items
        → r.rows.items ≡ tally.new.rows.items → r.parts.items ≡ tally.new.ends.parts.items → IsPass image.now steps r) }
    ensures err { IfErr result (λ e. e ≢ PartsError.Memory
        → run_length (most_stretches * steps) (start_of image.now) ≡ Err e) }
{
    image.fills_its_window();
    image.window().keeps_limits();
    let most = MOST_STRETCHES * steps;
    for done in 0..most {
        if done % PACE == 0 {
            follower.passed(u64::from(done), u64::from(most));
        }
        let word = next_word(cpu, uses)?;
        tally.end_since(steps, done, uses.last_use(word));
        let ends = take_step(cpu, uses, done + 1)?;
        tally.add_step(alloc, word, steps)?;
        if ends {
            tally.end_since(steps, done + 1, 0);
            return Ok(());
        }
    }
    Err(PartsError::TooLong)
}

/// The stretches of the whole run, by a machine before its first step.
fn walk_with<'a, A: Allocator + Clone, F: Follower>(
    alloc: &A,
    image: &Image<A>,
    steps: u32,
    follower: &F,
    cpu: &mut Cpu<'a, A>,
) -> Result<Stretches<A>, PartsError>
    requires steps { (1 ≤ steps) × (steps ≤ most_part) }
    requires start { cpu.old ≡ start_of image.now }
    ensures ok { IfOk result (λ r. IsPass image.now steps r) }
    ensures err { IfErr result (λ e. e ≢ PartsError.Memory
        → run_length (most_stretches * steps) (start_of image.now) ≡ Err e) }
{
    let window = image.window();
    let mut uses = LastUses::new(alloc, window)?;
    let mut tally = Tally::new(alloc, window)?;
    tally_run(alloc, image, steps, follower, cpu, &mut uses, &mut tally)?;
    Ok(tally.into_stretches(steps))
}

/// Carries out the whole run, and counts the steps of its stretches. `follower` is called after every million of them,
/// with how many there are at most.
///
/// Allocates the memory's size three times, and for each stretch as much as it has different pcs.
pub(crate) fn walk<A: Allocator + Clone, F: Follower>(
    alloc: A,
    image: &Image<A>,
    steps: u32,
    follower: &F,
) -> Result<Stretches<A>, PartsError>
    requires { (1 ≤ steps) × (steps ≤ most_part) }
    ensures ok { IfOk result (λ r. IsPass image.now steps r) }
    ensures err { IfErr result (λ e. e ≢ PartsError.Memory
        → run_length (most_stretches * steps) (start_of image.now) ≡ Err e) }
{
    let mut cpu = Cpu::new(alloc.clone()?, image)?;
    walk_with(&alloc, image, steps, follower, &mut cpu)
}
