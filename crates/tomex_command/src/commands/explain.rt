//! The command `explain`.
ghost use Rattle.std.specs.Prelude.{IfOk, IfErr, option_map, string_bytes};
ghost use Rattle.tomex_command.specs.ExplainLines.{IsExplanation, IsExplainFailure};

use crate::failure::Failure;
use std::alloc::{Allocator, Global};
use tomex_command_line::ExplainLine;
use tomex_refusals::{explain, list_refusals};

/// The text that `explain` prints: one refusal's explanation, or the list of those with a part of their lines, or of
/// all.
pub fn text_of_explain<A: Allocator>(
    alloc: A,
    heap: Global,
    line: &ExplainLine,
) -> Result<Vec<u8, A>, Failure>
    ensures text { IfOk result (λ text. IsExplanation (option_map string_bytes line.now.refusal) text.items) }
    ensures failure { IfErr result (IsExplainFailure (option_map string_bytes line.now.refusal)) }
{
    match &line.refusal {
        Some(words) => Ok(explain(alloc, heap, words.as_str())?),
        None => Ok(list_refusals(alloc)?),
    }
}
