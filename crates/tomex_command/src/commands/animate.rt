//! What `animate` prints.
ghost use Rattle.std.specs.Prelude.{◌≡◌, IfOk, IfErr};
ghost use Rattle.tomex_command.specs.Chosen.{choice_of};
ghost use Rattle.tomex_command.specs.RunViews.{IsNotShown, IsShown, cells_for};

use super::chosen::ChosenRun;
use super::run_view::RunView;
use crate::failure::Failure;
use std::alloc::{Allocator, Global};
use tomex_animate::{Cells, animation};
use tomex_command_line::AnimateLine;

/// A page's cells, which `blank` leaves empty.
fn cells_for(blank: bool) -> Cells
    ensures { result ≡ cells_for blank }
{
    if blank { Cells::Blank } else { Cells::Filled }
}

/// The page of a run, which has the study's name as it stands in the line.
pub fn animate_text<A: Allocator + Clone>(
    alloc: A,
    heap: Global,
    chosen: &ChosenRun<'_, A>,
    line: AnimateLine<'_>,
) -> Result<Vec<u8, A>, Failure>
    ensures text { IfOk result (λ text. IsShown (RunView.Animate line.entry) (choice_of chosen.now) text.items) }
    ensures failure { IfErr result (λ failure. IsNotShown failure (RunView.Animate line.entry) (choice_of chosen.now)) }
{
    Ok(animation(
        alloc,
        heap,
        cells_for(line.blank),
        line.run.study,
        chosen.program,
        chosen.number,
        chosen.config,
        line.from,
        line.cycles,
    )?)
}
