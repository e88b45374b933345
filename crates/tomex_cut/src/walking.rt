//! The run up to a part, and the part's steps.

ghost use Rattle.std.specs.Prelude.{◌≡◌, ◌+◌, ◌*◌, ◌-◌, ◌<◌, ◌≤◌, ◌≢◌, ℕ, Err, IfErr, IfOk, List, Ok, OnOk, Some};
ghost use Rattle.std.specs.Prelude.{if◌then◌else◌, length, not, ◌==◌};
ghost use Rattle.tomex_cut.specs.After.{after, left_by};
ghost use Rattle.tomex_cut.specs.Marks.{AreWordsOf, HaveMarks};
ghost use Rattle.tomex_cut.specs.Part.{Ends, Fails, GoesOn, most_part, part_at, verdict_at};
ghost use Rattle.tomex_cut.specs.Walking.{AreReady, HasTaken, IsFound};
ghost use Rattle.tomex_image.specs.Window.{IsWindow};
ghost use Rattle.tomex_rvexec.specs.declared.step.Step.{Step};
ghost use Rattle.tomex_rvexec.specs.Flow.{IsState};
ghost use Rattle.tomex_rvexec.specs.Machine.{step_of};
ghost use Rattle.tomex_rvexec.specs.Memory.{word_read};

use crate::error::CutError;
use crate::follower::Follower;
use crate::words::Words;
use std::alloc::Allocator;
use tomex_image::{Image, read_word};
use tomex_rvexec::{Cpu, Fault, FaultKind, Stepped};

/// The most steps of a part: a program takes at most 262,144, and a cut has 64 before them and an EBREAK after them.
pub const MOST_STEPS: u32 = 262_079;

/// The steps between two reports of how far the run is: some milliseconds.
const PACE: u64 = 1_048_576;

/// Carries out this number of steps, of a run that goes on after each of them.
pub(crate) fn skip<'a, A: Allocator, F: Follower>(
    cpu: &mut Cpu<'a, A>,
    steps: u64,
    follower: &F,
) -> Result<(), CutError>
    ensures ok { OnOk result (after cpu.old steps ≡ Ok cpu.new) }
    ensures err { IfErr result (λ e. after cpu.old steps ≡ Err e) }
{
    for done in 0..steps {
        if done % PACE == 0 {
            follower.passed(done, steps);
        }
        match cpu.step() {
            Ok(Stepped::Next) => {}
            Ok(Stepped::Ended(_)) => return Err(CutError::NoSuchStep),
            Err(fault) => return Err(CutError::Fault(fault)),
        }
    }
    Ok(())
}

/// True if the word at a place of a memory isn't that of the image.
fn is_changed(memory: &[u8], code: &[u8], place: usize) -> bool
    requires memory { place + 4 ≤ length memory.now }
    requires code { place + 4 ≤ length code.now }
    ensures { result ≡ not (word_read memory.now place == word_read code.now place) }
{
    read_word(memory, place) != read_word(code, place)
}

/// A step of a part: whether it ends the run, and whether its code was overwritten before the part.
#[derive(Clone, Copy)]
struct Taken {
    ends: bool,
    is_changed: bool,
}

/// Carries out a step of a part, and marks the words that it uses.
fn take_step<'a, A: Allocator>(
    cpu: &mut Cpu<'a, A>,
    image: &Image<A>,
    before: &[u8],
    words: &mut Words<A>,
) -> Result<Taken, CutError>
    requires image { image.now ≡ cpu.old.image }
    requires before { length before.now ≡ image.now.window.size }
    ensures ok { IfOk result
        (λ t. HasTaken image.now before.now cpu.old t.ends t.is_changed cpu.new words.old.base
        words.old.marks.items words.new.marks.items) }
    ensures base { words.new.base ≡ words.old.base }
    ensures count { length words.new.marks.items ≡ length words.old.marks.items }
    ensures err { IfErr result (λ e. left_by (step_of cpu.old) cpu.old ≡ Err e) }
    ensures faults { IfErr result (λ e. e ≢ CutError.NoSuchStep) }
{
    let (step, stepped) = match cpu.record_step() {
        Ok(taken) => taken,
        Err(fault) => return Err(CutError::Fault(fault)),
    };
    words.mark_step(&step);
    let place = (step.pc - image.window().base()) as usize;
    Ok(Taken {
        ends: matches!(stepped, Stepped::Ended(_)),
        is_changed: is_changed(before, image.memory(), place),
    })
}

/// True if a part with these words can end before the next pc, which no step of it uses.
fn can_end<'a, A: Allocator>(cpu: &Cpu<'a, A>, words: &Words<A>) -> Result<bool, CutError>
    requires state { IsState cpu.now }
    requires window { IsWindow cpu.now.image.window.base cpu.now.image.window.size }
    requires words { AreWordsOf cpu.now words.now.base words.now.marks.items }
    ensures ok { IfOk result (λ ends. (steps : List Step) → HaveMarks words.now.base words.now.marks.items steps
        → verdict_at cpu.now steps ≡ (if ends then Ends (Some cpu.now.pc) else GoesOn)) }
    ensures err { IfErr result (λ e. (steps : List Step) → verdict_at cpu.now steps ≡ Fails e) }
{
    let pc = cpu.pc();
    match words.is_marked(pc) {
        Some(is_marked) => Ok(!is_marked),
        None => Err(CutError::Fault(Fault {
            kind: FaultKind::Fetch,
            pc,
        })),
    }
}

/// The end of a part: its address, unless the run itself ends; and whether code of the part was overwritten before it.
#[derive(Clone, Copy)]
pub(crate) struct Found {
    pub(crate) end: Option<u32>,
    pub(crate) is_overwritten: bool,
}

/// Carries out the steps of the part that begins here, and marks the words that they use.
pub(crate) fn find_end<'a, A: Allocator>(
    cpu: &mut Cpu<'a, A>,
    image: &Image<A>,
    before: &[u8],
    words: &mut Words<A>,
    least: u32,
) -> Result<Found, CutError>
    requires image { (image.now ≡ cpu.old.image) × (before.now ≡ cpu.old.memory) }
    requires state { IsState cpu.old }
    requires window { IsWindow cpu.old.image.window.base cpu.old.image.window.size }
    requires words { AreReady cpu.old words.old.base words.old.marks.items }
    requires least { (1 ≤ least) × (least ≤ most_part) }
    ensures ok { IfOk result (λ f. IsFound cpu.old least f.end f.is_overwritten words.new.marks.items) }
    ensures same { (words.new.base ≡ words.old.base) × (length words.new.marks.items ≡ length words.old.marks.items) }
    ensures err { IfErr result (λ e. part_at (Ok cpu.old) least ≡ Err e) }
{
    let mut is_overwritten = false;
    for done in 0..MOST_STEPS {
        let taken = take_step(cpu, image, before, words)?;
        is_overwritten |= taken.is_changed;
        if taken.ends {
            return Ok(Found {
                end: None,
                is_overwritten,
            });
        }
        if done + 1 >= least && can_end(cpu, words)? {
            return Ok(Found {
                end: Some(cpu.pc()),
                is_overwritten,
            });
        }
    }
    Err(CutError::NoEnd)
}
