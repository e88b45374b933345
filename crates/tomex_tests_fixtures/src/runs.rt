//! Runs of small programs.

ghost use Rattle.std.specs.Prelude.{◌≤◌, length, IfOk};

use crate::images::image_of;
use std::alloc::Global;
use std::test::Fail;
use tomex_rvexec::trace;
use tomex_timing::Run;

/// A program, loaded at a base into memory of this size.
#[derive(Clone, Copy)]
pub struct Program {
    pub base: u32,
    pub size: u32,
    pub words: &'static [u32],
}

/// The run of a program of at most 2000 steps.
pub fn run_of(alloc: Global, program: &Program) -> Result<Run, Fail>
    ensures { IfOk result (λ run. length run ≤ 2000) }
{
    let image = image_of(alloc, program.base, program.size, program.words)?;
    Ok(Run::new(alloc, trace(alloc, &image, 2000)?)?)
}
