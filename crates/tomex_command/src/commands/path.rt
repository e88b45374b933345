//! What `path` prints.
ghost use Rattle.std.specs.Prelude.{◌≤◌, length, IfOk, IfErr};
ghost use Rattle.tomex_rvexec.specs.Run.{most_steps};
ghost use Rattle.tomex_functions.specs.WithFunctions.{IsWithFunctions};
ghost use Rattle.tomex_command.specs.Chosen.{choice_of};
ghost use Rattle.tomex_command.specs.RunViews.{IsNotShown, IsPathWith, IsPathWithout, IsShown};

use super::chosen::ChosenRun;
use super::run_view::RunView;
use crate::failure::Failure;
use std::alloc::{AllocError, Allocator, Global};
use tomex_command_line::PathLine;
use tomex_config::Config;
use tomex_functions::FunctionsError;
use tomex_path_views::{
    path_by_function, path_by_pc, path_by_pc_and_function, path_links, path_links_and_functions,
    path_report,
};
use tomex_timing::Run;

/// The path of a run without functions: link by link, by place in the program, or by part.
fn path_without<A: Allocator + Clone>(
    alloc: A,
    heap: Global,
    run: &Run<A>,
    config: &Config,
    line: PathLine<'_>,
) -> Result<Vec<u8, A>, AllocError>
    requires few { length run.now ≤ most_steps }
    ensures { IfOk result
        (λ text. IsPathWithout line.entry.links line.entry.by_pc config.now run.now text.items) }
{
    if line.links {
        path_links(alloc, heap, run, config)
    } else if line.by_pc {
        path_by_pc(alloc, heap, run, config)
    } else {
        path_report(alloc, heap, run, config)
    }
}

/// The path of a run with functions: link by link, by place in the program, or by function.
fn path_with<A: Allocator + Clone>(
    alloc: A,
    heap: Global,
    run: &Run<A>,
    config: &Config,
    file: &[u8],
    line: PathLine<'_>,
) -> Result<Vec<u8, A>, FunctionsError>
    requires few { length run.now ≤ most_steps }
    ensures { IsWithFunctions
        (IsPathWith line.entry.links line.entry.by_pc file.now config.now run.now) file.now result }
{
    if line.links {
        path_links_and_functions(alloc, heap, run, config, file)
    } else if line.by_pc {
        path_by_pc_and_function(alloc, heap, run, config, file)
    } else {
        path_by_function(alloc, heap, run, config, file)
    }
}

/// The path of a run, as it is asked for.
pub fn path_text<A: Allocator + Clone>(
    alloc: A,
    heap: Global,
    chosen: &ChosenRun<'_, A>,
    line: PathLine<'_>,
) -> Result<Vec<u8, A>, Failure>
    ensures text { IfOk result (λ text. IsShown (RunView.Path line.entry) (choice_of chosen.now) text.items) }
    ensures failure { IfErr result (λ failure. IsNotShown failure (RunView.Path line.entry) (choice_of chosen.now)) }
{
    let run = chosen.program.run();
    if line.by_function {
        Ok(path_with(alloc, heap, run, chosen.config, chosen.file, line)?)
    } else {
        Ok(path_without(alloc, heap, run, chosen.config, line)?)
    }
}
