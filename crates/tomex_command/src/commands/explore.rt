//! The command `explore`.
ghost use Rattle.std.specs.Prelude.{IfOk, IfErr};
ghost use Rattle.tomex_command.specs.FrontLines.{IsExploreFailure, IsReportOf};

use super::study::sources_in;
use crate::failure::Failure;
use crate::metered::Metered;
use std::alloc::{Allocator, Global};
use std::sync::Wait;
use std::thread::Threads;
use tomex_command_line::ExploreLine;
use tomex_report::answer;
use tomex_streams::{Files, Meter};

/// The report that `explore` prints, by the call that carries the claim, word for word, on its contract.
pub fn text_of_explore<
    R: Threads + Wait + Sync,
    F: Files,
    A: Allocator + Clone + Send + Sync + Drop,
    M: Meter + Sync,
>(
    rt: &R,
    alloc: A,
    heap: Global,
    line: ExploreLine<'_>,
    files: &F,
    meter: &M,
) -> Result<Vec<u8, A>, Failure>
    ensures text { IfOk result (λ text. IsReportOf (F.file files.now) line.entry.study.now text.items) }
    ensures failure { IfErr result
        (λ failure. IsExploreFailure (F.file files.now) line.entry.study.now failure) }
{
    let sources = sources_in(alloc.clone()?, heap, files, line.study)?;
    let (study, contents) = (sources.study.as_slice(), sources.files.as_slice());
    let workers = line.workers as usize;
    let gate = Metered::new(meter, u64::from(line.workers));
    let report = answer(rt, alloc, heap, study, contents, workers, &gate);
    meter.clear();
    Ok(report?)
}
