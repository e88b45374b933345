//! From the bytes of a study to its report.

ghost use Rattle.std.specs.Prelude.{◌≡◌, ◌≢◌, ◌≤◌, map, IfOk, IfErr};
ghost use Rattle.tomex_study.specs.StudyFront.{front_of_study};
ghost use Rattle.tomex_sweep.specs.declared.outcome.SweepError.TheVariants.{Memory, Worker};
ghost use Rattle.tomex_report.specs.declared.answer_error.AnswerError.TheVariants.{Sweep};
ghost use Rattle.tomex_report.specs.Answer.{IsAnswer, IsAnswerRefusal, IsOfSweep};
ghost use Rattle.tomex_texts.specs.FrontReport.{report_of};

use crate::answer_error::AnswerError;
use crate::front_text::front_report;
use crate::replaying::replay;
use std::alloc::{AllocError, Allocator, Global};
use std::sync::Wait;
use std::thread::Threads;
use tomex_document::study_in;
use tomex_study::Study;
use tomex_sweep::{FrontRow, Gate, OpenGate, explore, run_all_under};

/// The report of a study's front, whose rows are run again.
fn report_of_front<R: Threads + Sync, A: Allocator + Clone + Send + Sync + Drop>(
    rt: &R,
    alloc: A,
    heap: Global,
    study: &Study<A>,
    front: &[FrontRow],
) -> Result<Vec<u8, A>, AllocError>
    requires { front.now ≡ front_of_study study.now }
    ensures { IfOk result (λ text. text.items ≡ report_of study.now) }
{
    study.keeps_limits();
    let ends = replay(rt, alloc.clone()?, study, front)?;
    front_report(alloc, heap, study, front, ends.as_slice())
}

/// The report of a study that workers explore.
fn report_by_workers<
    R: Threads + Wait + Sync,
    A: Allocator + Clone + Send + Sync + Drop,
    G: Gate + Sync,
>(
    rt: &R,
    alloc: A,
    heap: Global,
    study: &Study<A>,
    workers: usize,
    gate: &G,
) -> Result<Vec<u8, A>, AnswerError>
    requires some_workers { 1 ≤ workers }
    requires few_workers { workers ≤ 32 }
    ensures ok { IfOk result (λ text. text.items ≡ report_of study.now) }
    ensures err { IfErr result IsOfSweep }
{
    let outcome = explore(rt, alloc.clone()?, study, workers, gate)?;
    Ok(report_of_front(rt, alloc, heap, study, outcome.front.as_slice())?)
}

/// For every study whose programs end within the stated number of instructions, every list of
/// configurations, number of workers and order of stealing, the report's bytes are those of one
/// thread that runs everything to its end by the in-order RV32IM machine and the timing recurrence;
/// each configuration is taken once, and a dropped one has a finished one no dearer and strictly
/// faster.
///
/// `study` is the document, `files` the contents of its programs' files in their order. A study is
/// refused as `read_study` refuses it; of one that isn't, only memory and the start of a thread can
/// be refused. `toml` and `csv` allocate from `heap`.
pub fn answer<R: Threads + Wait + Sync, A: Allocator + Clone + Send + Sync + Drop, G: Gate + Sync>(
    rt: &R,
    alloc: A,
    heap: Global,
    study: &[u8],
    files: &[Vec<u8, A>],
    workers: usize,
    gate: &G,
) -> Result<Vec<u8, A>, AnswerError>
    requires some_workers { 1 ≤ workers }
    requires few_workers { workers ≤ 32 }
    ensures ok { IfOk result
        (λ text. IsAnswer study.now (map (λ f. f.items) files.now) text.items) }
    ensures err { IfErr result (λ e. IsAnswerRefusal study.now (map (λ f. f.items) files.now) e) }
{
    let read = study_in(&alloc, heap, study, files)?;
    report_by_workers(rt, alloc, heap, &read, workers, gate)
}

/// The report of a study, whose rows are all run to their ends on the calling thread.
fn report_of_all_runs<R: Threads + Sync, A: Allocator + Clone + Send + Sync + Drop, G: Gate>(
    rt: &R,
    alloc: A,
    heap: Global,
    study: &Study<A>,
    gate: &G,
) -> Result<Vec<u8, A>, AnswerError>
    ensures ok { IfOk result (λ text. text.items ≡ report_of study.now) }
    ensures err { IfErr result (λ e. e ≡ Sweep Memory) }
{
    let outcome = run_all_under(alloc.clone()?, study, gate)?;
    Ok(report_of_front(rt, alloc, heap, study, outcome.front.as_slice())?)
}

/// `answer_all` with a gate, which hears only of worker 0.
pub fn answer_all_under<R: Threads + Sync, A: Allocator + Clone + Send + Sync + Drop, G: Gate>(
    rt: &R,
    alloc: A,
    heap: Global,
    study: &[u8],
    files: &[Vec<u8, A>],
    gate: &G,
) -> Result<Vec<u8, A>, AnswerError>
    ensures ok { IfOk result
        (λ text. IsAnswer study.now (map (λ f. f.items) files.now) text.items) }
    ensures err { IfErr result (λ e. IsAnswerRefusal study.now (map (λ f. f.items) files.now) e) }
    ensures no_worker { IfErr result (λ e. e ≢ Sweep Worker) }
{
    let read = study_in(&alloc, heap, study, files)?;
    report_of_all_runs(rt, alloc, heap, &read, gate)
}

/// The same report, with all rows run to their ends on the calling thread.
pub fn answer_all<R: Threads + Sync, A: Allocator + Clone + Send + Sync + Drop>(
    rt: &R,
    alloc: A,
    heap: Global,
    study: &[u8],
    files: &[Vec<u8, A>],
) -> Result<Vec<u8, A>, AnswerError>
    ensures ok { IfOk result
        (λ text. IsAnswer study.now (map (λ f. f.items) files.now) text.items) }
    ensures err { IfErr result (λ e. IsAnswerRefusal study.now (map (λ f. f.items) files.now) e) }
    ensures no_worker { IfErr result (λ e. e ≢ Sweep Worker) }
{
    answer_all_under(rt, alloc, heap, study, files, &OpenGate)
}
