//! The text of the commands that print a view of one run of a study.
ghost use Rattle.std.specs.Prelude.{◌≡◌, IfOk, IfErr};
ghost use Rattle.tomex_command.specs.Chosen.{choice_of};
ghost use Rattle.tomex_command.specs.RunViews.{IsNotShown, IsRunViewFailure, IsRunViewOf, IsShown, run_of_view};

use super::animate::animate_text;
use super::chosen::{ChosenRun, choose};
use super::path::path_text;
use super::pipeline::pipeline_text;
use super::stalls::stalls_text;
use super::study::study_with_files;
use super::tables::text_after;
use crate::failure::Failure;
use std::alloc::{Allocator, Global};
use tomex_command_line::{AnimateLine, OneRun, PathLine, PipelineLine, StallsLine, TablesLine};
use tomex_loop_views::loops_report;
use tomex_streams::Files;
use tomex_texts::times_report;

/// A view of a run: the run, and what of it is asked for.
#[derive(Clone, Copy)]
pub enum RunView<'a> {
    Times(OneRun<'a>),
    Stalls(StallsLine<'a>),
    Path(PathLine<'a>),
    Loops(OneRun<'a>),
    Pipeline(PipelineLine<'a>),
    Tables(TablesLine<'a>),
    Animate(AnimateLine<'a>),
}

/// The run that a view is of.
fn run_of(view: RunView<'_>) -> OneRun<'_>
    ensures { result ≡ run_of_view view.entry }
{
    match view {
        RunView::Times(run) | RunView::Loops(run) => run,
        RunView::Stalls(line) => line.run,
        RunView::Path(line) => line.run,
        RunView::Pipeline(line) => line.run,
        RunView::Tables(line) => line.run,
        RunView::Animate(line) => line.run,
    }
}

/// What a view shows of the run that was chosen for it.
fn shown<A: Allocator + Clone>(
    alloc: A,
    heap: Global,
    chosen: &ChosenRun<'_, A>,
    view: RunView<'_>,
) -> Result<Vec<u8, A>, Failure>
    ensures text { IfOk result (λ text. IsShown view.entry (choice_of chosen.now) text.items) }
    ensures failure { IfErr result (λ failure. IsNotShown failure view.entry (choice_of chosen.now)) }
{
    match view {
        RunView::Times(_) => Ok(times_report(alloc, heap, chosen.program, chosen.config)?),
        RunView::Stalls(line) => stalls_text(alloc, heap, chosen, line),
        RunView::Path(line) => path_text(alloc, heap, chosen, line),
        RunView::Loops(_) => {
            let run = chosen.program.run();
            Ok(loops_report(alloc, heap, run, chosen.config, chosen.file)?)
        }
        RunView::Pipeline(line) => pipeline_text(alloc, heap, chosen, line),
        RunView::Tables(line) => text_after(alloc, chosen, line),
        RunView::Animate(line) => animate_text(alloc, heap, chosen, line),
    }
}

/// The text of a view of a run. What the view itself refuses, as a missing step, is looked at last.
pub fn text_of_run_view<F: Files, A: Allocator + Clone>(
    alloc: A,
    heap: Global,
    view: RunView<'_>,
    files: &F,
) -> Result<Vec<u8, A>, Failure>
    ensures text { IfOk result (λ text. IsRunViewOf view.entry (F.file files.now) text.items) }
    ensures failure { IfErr result (IsRunViewFailure view.entry (F.file files.now)) }
{
    let run = run_of(view);
    let studied = study_with_files(alloc.clone()?, heap, files, run.study)?;
    let chosen = choose(heap, &studied, run)?;
    shown(alloc, heap, &chosen, view)
}
