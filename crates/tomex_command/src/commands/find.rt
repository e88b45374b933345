//! The command `find`.
ghost use Rattle.std.specs.Prelude.{IfOk, IfErr};
ghost use Rattle.tomex_command.specs.FindLines.{IsFindOf, IsFindFailure};

use super::study::study_named;
use crate::failure::Failure;
use std::alloc::{Allocator, Global};
use tomex_command_line::FindLine;
use tomex_find::find_table;
use tomex_streams::Files;

/// The text that `find` prints.
pub fn text_of_find<F: Files, A: Allocator + Clone>(
    alloc: A,
    heap: Global,
    line: FindLine<'_>,
    files: &F,
) -> Result<Vec<u8, A>, Failure>
    ensures text { IfOk result (λ text. IsFindOf (F.file files.now) line.entry text.items) }
    ensures failure { IfErr result (λ failure. IsFindFailure (F.file files.now) line.entry failure) }
{
    let study = study_named(alloc.clone()?, heap, files, line.study)?;
    Ok(find_table(alloc, heap, &study, line.choices.as_slice())?)
}
