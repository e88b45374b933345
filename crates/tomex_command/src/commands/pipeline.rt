//! What `pipeline` prints.
ghost use Rattle.std.specs.Prelude.{IfOk, IfErr};
ghost use Rattle.tomex_command.specs.Chosen.{choice_of};
ghost use Rattle.tomex_command.specs.RunViews.{IsNotShown, IsShown};

use super::chosen::ChosenRun;
use super::run_view::RunView;
use crate::failure::Failure;
use std::alloc::{Allocator, Global};
use tomex_command_line::PipelineLine;
use tomex_konata::konata_text;
use tomex_run_views::pipeline_text as picture_text;

/// A picture of a run, or its log. The size of a picture is tested last.
pub fn pipeline_text<A: Allocator + Clone>(
    alloc: A,
    heap: Global,
    chosen: &ChosenRun<'_, A>,
    line: PipelineLine<'_>,
) -> Result<Vec<u8, A>, Failure>
    ensures text { IfOk result (λ text. IsShown (RunView.Pipeline line.entry) (choice_of chosen.now) text.items) }
    ensures failure { IfErr result
        (λ failure. IsNotShown failure (RunView.Pipeline line.entry) (choice_of chosen.now)) }
{
    let run = chosen.program.run();
    let (from, steps) = (line.from, line.steps);
    if line.konata {
        Ok(konata_text(alloc, heap, run, chosen.config, from, steps)?)
    } else {
        Ok(picture_text(alloc, heap, run, chosen.config, from, steps)?)
    }
}
