//! The text of a run, from an image's bytes: what `tomex run` prints.

ghost use Rattle.std.specs.Prelude.{◌≡◌, ◌≢◌, ◌++◌, IfOk, IfErr, string_bytes};
ghost use Rattle.tomex_command.specs.declared.run.RunRefusal.TheVariants as refusals;
ghost use Rattle.tomex_command.specs.RunText.{IsRunText, IsRunRefusal, end_line, register_lines};
ghost use Rattle.tomex_command.specs.RunText.{refusal_of_image, refusal_of_run};

use std::alloc::{AllocError, Allocator};
use std::fmt::Write;
use thiserror::Error;
use tomex_image::{ImageError, Window, load};
use tomex_rvexec::{End, Fault, RunError, run};

/// Why an image has no text of a run.
#[derive(Clone, Copy, Debug, Error, PartialEq, Eq)]
pub enum RunRefusal {
    /// The bytes are no image for the window. Never `ImageError::Memory`.
    #[error("image: {0}")]
    Image(ImageError),
    /// An instruction can't be carried out.
    #[error("fault: {0}")]
    Fault(Fault),
    /// The program doesn't end within the limit.
    #[error("too long")]
    TooLong,
    /// Out of memory.
    #[error("out of memory")]
    Memory,
}

impl From<AllocError> for RunRefusal {
    ghost from_gives = { λ _ e. e ≡ refusals.Memory };

    fn from(_error: AllocError) -> Self {
        RunRefusal::Memory
    }
}

impl From<ImageError> for RunRefusal {
    ghost from_gives = { λ e r. r ≡ refusal_of_image e };

    fn from(error: ImageError) -> Self {
        match error {
            ImageError::Memory => RunRefusal::Memory,
            other => RunRefusal::Image(other),
        }
    }
}

impl From<RunError> for RunRefusal {
    ghost from_gives = { λ e r. r ≡ refusal_of_run e };

    fn from(error: RunError) -> Self {
        match error {
            RunError::Fault(fault) => RunRefusal::Fault(fault),
            RunError::TooLong => RunRefusal::TooLong,
            RunError::Memory => RunRefusal::Memory,
        }
    }
}

/// A line for each register: its name and its value in hexadecimal.
fn text_of_registers<A: Allocator>(alloc: A, registers: &[u32]) -> Result<String<A>, AllocError>
    ensures { IfOk result (λ t. string_bytes t ≡ register_lines 0 registers.now) }
{
    let mut text = String::new(alloc);
    for (register, value) in registers.iter().enumerate() {
        write!(&mut text, "x{register}={value:08x}\n")?;
    }
    Ok(text)
}

/// The lines of the registers and of the end.
fn text_of_end<A: Allocator>(alloc: A, end: &End<A>) -> Result<String<A>, AllocError>
    ensures { IfOk result
        (λ t. string_bytes t ≡ register_lines 0 end.now.regs ++ end_line end.now.kind end.now.pc end.now.steps) }
{
    let mut text = text_of_registers(alloc, end.regs.as_slice())?;
    let (kind, pc, steps) = (end.kind, end.pc, end.steps);
    write!(&mut text, "{kind} at {pc:08x} after {steps}\n")?;
    Ok(text)
}

/// Runs an image's bytes and reports how they end: 32 lines `x0=00000000` to `x31=..` in
/// hexadecimal, and a line like `ebreak at 0000000c after 4`, which names the end, its address and
/// the number of steps. Every line ends in a line feed.
pub fn run_text<A: Allocator + Clone>(
    alloc: A,
    bytes: &[u8],
    window: Window,
    limit: u32,
) -> Result<Vec<u8, A>, RunRefusal>
    ensures ok { IfOk result (λ v. IsRunText bytes.now window limit v.items) }
    ensures err { IfErr result (λ e. IsRunRefusal bytes.now window limit e) }
{
    let image = load(alloc.clone()?, bytes, window)?;
    let end = run(alloc.clone()?, &image, limit)?;
    let text = text_of_end(alloc, &end)?;
    Ok(text.into_bytes())
}
