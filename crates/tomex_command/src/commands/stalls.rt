//! What `stalls` prints.
ghost use Rattle.std.specs.Prelude.{IfOk, IfErr};
ghost use Rattle.tomex_command.specs.Chosen.{choice_of};
ghost use Rattle.tomex_command.specs.RunViews.{IsNotShown, IsShown};

use super::chosen::ChosenRun;
use super::run_view::RunView;
use crate::failure::Failure;
use std::alloc::{Allocator, Global};
use tomex_command_line::StallsLine;
use tomex_functions::{stalls_by_function, stalls_by_pc_and_function};
use tomex_run_views::{stalls_by_pc, stalls_report};

/// The report of a run: by part, by place in the program, by function, or by place with its function.
pub fn stalls_text<A: Allocator + Clone>(
    alloc: A,
    heap: Global,
    chosen: &ChosenRun<'_, A>,
    line: StallsLine<'_>,
) -> Result<Vec<u8, A>, Failure>
    ensures text { IfOk result (λ text. IsShown (RunView.Stalls line.entry) (choice_of chosen.now) text.items) }
    ensures failure { IfErr result (λ failure. IsNotShown failure (RunView.Stalls line.entry) (choice_of chosen.now)) }
{
    let run = chosen.program.run();
    let (config, file) = (chosen.config, chosen.file);
    if line.by_function {
        if line.by_pc {
            Ok(stalls_by_pc_and_function(alloc, heap, run, config, file)?)
        } else {
            Ok(stalls_by_function(alloc, heap, run, config, file)?)
        }
    } else if line.by_pc {
        Ok(stalls_by_pc(alloc, heap, run, config)?)
    } else {
        Ok(stalls_report(alloc, heap, run, config)?)
    }
}
