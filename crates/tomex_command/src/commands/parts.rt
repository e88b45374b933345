//! The command `parts`.
ghost use Rattle.std.specs.Prelude.{IfOk, IfErr};
ghost use Rattle.tomex_command.specs.PartsLines.{IsPartsFailure, IsPartsOf};

use super::image::image_of;
use crate::failure::Failure;
use crate::stepping::Stepping;
use std::alloc::{Allocator, Global};
use tomex_command_line::PartsLine;
use tomex_samples::{parts, parts_csv};
use tomex_streams::{Counted, Files, Meter};

/// The text that `parts` prints. The meter shows how far the run is.
pub fn text_of_parts<F: Files, A: Allocator + Clone, M: Meter>(
    alloc: A,
    heap: Global,
    line: PartsLine<'_>,
    files: &F,
    meter: &M,
) -> Result<Vec<u8, A>, Failure>
    ensures text { IfOk result (λ text. IsPartsOf (F.file files.now) line.entry text.items) }
    ensures failure { IfErr result (λ failure. IsPartsFailure (F.file files.now) line.entry failure) }
{
    let image = image_of(alloc.clone()?, heap, files, line.image)?;
    let counted = Counted::AtMostSteps;
    let found = parts(
        alloc.clone()?,
        &image,
        line.steps,
        &Stepping { meter, counted },
    );
    meter.clear();
    Ok(parts_csv(alloc, found?.as_slice())?)
}
