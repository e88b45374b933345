//! The calls under test, each once and without a contract, so that no test has to prove theirs
//! again, and each with what it owns. All memory is of one kind, and whatever fails is out of memory.

use std::alloc::{AllocError, Global};
use std::sync::Wait;
use std::thread::Threads;
use tomex_document::read_study;
use tomex_image::{Image, Window, load};
use tomex_report::{answer, answer_all};
use tomex_sweep::{
    Gate, Mark, OpenGate, Stacks, Study, SweepError, UsualStacks, explore_on, run_all,
};
use tomex_tests_fixtures::programs::LOOP;
use tomex_tests_fixtures::{Heap, Try, ample, refusals_of};

/// The files of these programs.
fn files_in(other: Global, programs: &[&[u8]]) -> Result<Vec<Vec<u8, Heap>>, AllocError> {
    let mut files = Vec::new(other);
    for program in programs {
        files.push(program.to_vec(ample(other)?)?)?;
    }
    Ok(files)
}

/// The file of the loop.
pub static LOOP_ALONE: [&[u8]; 1] = [LOOP];

/// The study of a document and of these programs, in memory of a heap.
pub fn study_in(
    heap: Heap,
    other: Global,
    document: &str,
    programs: &[&[u8]],
) -> Result<Study<Heap>, AllocError> {
    let files = files_in(other, programs)?;
    let study = read_study(heap, other, document.as_bytes(), files.as_slice());
    study.ok().ok_or(AllocError)
}

/// The image of a program at 0 in a window of `size` bytes.
pub fn image_in(other: Global, program: &[u8], size: u32) -> Result<Image<Heap>, AllocError> {
    let window = Window::new(0, size).ok_or(AllocError)?;
    load(ample(other)?, program, window).ok().ok_or(AllocError)
}

/// The marks that 1 to 32 workers give a study, in memory of a heap. They must gather nothing.
pub fn marks_in<R: Threads + Wait + Sync, G: Gate + Sync, S: Stacks + Sync>(
    rt: &R,
    heap: Heap,
    study: &Study<Heap>,
    workers: usize,
    gate: &G,
    stacks: &S,
) -> Result<Vec<Mark, Heap>, SweepError> {
    let outcome = explore_on(rt, heap, study, workers.max(1).min(32), gate, stacks)?;
    if outcome.gathered == 0 {
        Ok(outcome.marks)
    } else {
        Err(SweepError::Worker)
    }
}

/// The same for the study of a document and of these programs, which is in ample memory.
pub fn explored_on<R: AllocGlobal + Threads + Wait + Sync, G: Gate + Sync, S: Stacks + Sync>(
    rt: &R,
    heap: Heap,
    document: &str,
    programs: &[&[u8]],
    workers: usize,
    gate: &G,
    stacks: &S,
) -> Result<Vec<Mark, Heap>, SweepError> {
    let study = study_in(ample(rt.alloc())?, rt.alloc(), document, programs)?;
    marks_in(rt, heap, &study, workers, gate, stacks)
}

/// The same on the usual stacks.
pub fn explored<R: AllocGlobal + Threads + Wait + Sync, G: Gate + Sync>(
    rt: &R,
    heap: Heap,
    document: &str,
    programs: &[&[u8]],
    workers: usize,
    gate: &G,
) -> Result<Vec<Mark, Heap>, SweepError> {
    explored_on(rt, heap, document, programs, workers, gate, &UsualStacks)
}

/// True if there is memory to run each row of such a study to its end.
fn are_all_run(
    heap: Heap,
    other: Global,
    document: &str,
    programs: &[&[u8]],
) -> Result<bool, AllocError> {
    let study = study_in(ample(other)?, other, document, programs)?;
    Ok(run_all(heap, &study).is_ok())
}

/// The report of a study and its files with 1 to 32 workers, or, with `None`, by the call that runs
/// each row to its end.
fn report_of<R: Threads + Wait + Sync, G: Gate + Sync>(
    rt: &R,
    heap: Heap,
    other: Global,
    study: &[u8],
    files: &[Vec<u8, Heap>],
    workers: Option<usize>,
    gate: &G,
) -> Option<Vec<u8, Heap>> {
    match workers {
        Some(workers) => answer(rt, heap, other, study, files, workers.max(1).min(32), gate).ok(),
        None => answer_all(rt, heap, other, study, files).ok(),
    }
}

/// The same for the file of a program, which is in ample memory.
pub fn report_in<R: AllocGlobal + Threads + Wait + Sync, G: Gate + Sync>(
    rt: &R,
    heap: Heap,
    study: &str,
    file: &[u8],
    workers: Option<usize>,
    gate: &G,
) -> Result<Vec<u8, Heap>, AllocError> {
    let files = files_in(rt.alloc(), &[file])?;
    let (study, files) = (study.as_bytes(), files.as_slice());
    report_of(rt, heap, rt.alloc(), study, files, workers, gate).ok_or(AllocError)
}

/// The outcome of a try of a call. What it gives if it has memory, its contract says.
pub fn granted(is_given: bool) -> Try {
    if is_given {
        Try::Answered
    } else {
        Try::Refused
    }
}

/// The number of blocks that the call takes that runs each row to its end.
pub fn blocks_of_all(
    other: Global,
    document: &str,
    programs: &[&[u8]],
) -> Result<Option<u64>, AllocError> {
    let blocks = refusals_of!(other, heap => {
        granted(are_all_run(heap, other, document, programs)?)
    });
    Ok(blocks)
}

/// The number of blocks that an exploration with this number of workers takes.
pub fn blocks_of_some<R: AllocGlobal + Threads + Wait + Sync>(
    rt: &R,
    document: &str,
    programs: &[&[u8]],
    workers: usize,
) -> Result<Option<u64>, AllocError> {
    let blocks = refusals_of!(rt.alloc(), heap => {
        granted(explored(rt, heap, document, programs, workers, &OpenGate).is_ok())
    });
    Ok(blocks)
}
