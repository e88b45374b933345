//! What `functions` prints.
ghost use Rattle.std.specs.Prelude.{◌≡◌, IfOk, IfErr};
ghost use Rattle.tomex_command.specs.Chosen.{choice_of};
ghost use Rattle.tomex_command.specs.FunctionsLines.{AreReported, AreUnreported, IsFunctionsFailure, IsFunctionsOf};
ghost use Rattle.tomex_command.specs.FunctionsLines.{build_in, run_of_build};

use super::chosen::{ChosenRun, choose};
use super::study::study_with_files;
use crate::failure::Failure;
use std::alloc::{Allocator, Global};
use tomex_command_line::{FunctionsLine, OneRun};
use tomex_functions::{BuildRun, function_changes};
use tomex_streams::Files;

/// The run of a build that a line names.
fn run_of<'a>(line: FunctionsLine<'a>, build: &'a str) -> OneRun<'a>
    ensures { result ≡ run_of_build line.entry build.entry }
{
    OneRun {
        study: line.study,
        config: line.config,
        program: build,
    }
}

/// What each function takes in two builds that were chosen.
fn report_of<A: Allocator + Clone>(
    alloc: A,
    heap: Global,
    old: &ChosenRun<'_, A>,
    new: &ChosenRun<'_, A>,
) -> Result<Vec<u8, A>, Failure>
    ensures text { IfOk result (λ text.
        AreReported old.now.config.now (build_in (choice_of old.now)) (build_in (choice_of new.now)) text.items) }
    ensures failure { IfErr result (AreUnreported old.now.config.now (build_in (choice_of old.now))
        (build_in (choice_of new.now))) }
{
    let old_build = BuildRun {
        run: old.program.run(),
        file: old.file,
    };
    let new_build = BuildRun {
        run: new.program.run(),
        file: new.file,
    };
    Ok(function_changes(alloc, heap, old.config, &old_build, &new_build)?)
}

/// The text that `functions` prints. The symbols of the programs' files are the last that is looked at.
pub fn text_of_functions<F: Files, A: Allocator + Clone>(
    alloc: A,
    heap: Global,
    line: FunctionsLine<'_>,
    files: &F,
) -> Result<Vec<u8, A>, Failure>
    ensures text { IfOk result (λ text. IsFunctionsOf (F.file files.now) line.entry text.items) }
    ensures failure { IfErr result (λ failure. IsFunctionsFailure (F.file files.now) line.entry failure) }
{
    let studied = study_with_files(alloc.clone()?, heap, files, line.study)?;
    let old = choose(heap, &studied, run_of(line, line.builds.old))?;
    let new = choose(heap, &studied, run_of(line, line.builds.new))?;
    report_of(alloc, heap, &old, &new)
}
