//! The command `run`.
ghost use Rattle.std.specs.Prelude.{IfOk, IfErr, IsErrOf};
ghost use Rattle.tomex_image.specs.Window.{IsWindow};
ghost use Rattle.tomex_command.specs.RunLines.{IsRunOf, IsRunFailure};

use super::reading::read;
use crate::failure::Failure;
use crate::run::run_text;
use std::alloc::{Allocator, Global};
use tomex_command_line::RunLine;
use tomex_image::Window;
use tomex_streams::Files;

/// The text that `run` prints. The window is tested before the file is read.
pub fn text_of_run<F: Files, A: Allocator + Clone>(
    alloc: A,
    heap: Global,
    line: RunLine<'_>,
    files: &F,
) -> Result<Vec<u8, A>, Failure>
    ensures text { IfOk result (λ text. IsRunOf (F.file files.now) line.entry text.items) }
    ensures failure { IfErr result (λ failure. IsRunFailure (F.file files.now) line.entry failure) }
    ensures window { (IsWindow line.entry.image.base line.entry.image.size → ⊥)
        → IsErrOf result Failure.BadWindow }
{
    let window = Window::new(line.image.base, line.image.size).ok_or(Failure::BadWindow)?;
    let image = read(alloc.clone()?, heap, files, line.image.file)?;
    Ok(run_text(alloc, image.as_slice(), window, line.limit)?)
}
