//! The command `all`.
ghost use Rattle.std.specs.Prelude.{IfOk, IfErr};
ghost use Rattle.tomex_command.specs.FrontLines.{IsAllFailure, IsReportOf};

use super::study::sources_in;
use crate::failure::Failure;
use crate::metered::Metered;
use std::alloc::{Allocator, Global};
use std::thread::Threads;
use tomex_command_line::AllLine;
use tomex_report::answer_all_under;
use tomex_streams::{Files, Meter};

/// The text that `all` prints. It never reports a refused thread.
pub fn text_of_all<
    R: Threads + Sync,
    F: Files,
    A: Allocator + Clone + Send + Sync + Drop,
    M: Meter,
>(
    rt: &R,
    alloc: A,
    heap: Global,
    line: AllLine<'_>,
    files: &F,
    meter: &M,
) -> Result<Vec<u8, A>, Failure>
    ensures text { IfOk result (λ text. IsReportOf (F.file files.now) line.entry.study.now text.items) }
    ensures failure { IfErr result
        (λ failure. IsAllFailure (F.file files.now) line.entry.study.now failure) }
{
    let sources = sources_in(alloc.clone()?, heap, files, line.study)?;
    let (study, contents) = (sources.study.as_slice(), sources.files.as_slice());
    let gate = Metered::new(meter, 1);
    let report = answer_all_under(rt, alloc, heap, study, contents, &gate);
    meter.clear();
    Ok(report?)
}
