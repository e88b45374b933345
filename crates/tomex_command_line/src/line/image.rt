//! The first arguments of the commands on an image: `IMAGE [--base N] [--size N]`.
ghost use Rattle.std.specs.Prelude.{◌≡◌, ◌≤◌, IfOk, IfErr};
ghost use Rattle.clap.specs.Simple.{app_of};
ghost use Rattle.clap.specs.Words.{found_of};
ghost use Rattle.clap.specs.Walk.{rows_of};
ghost use Rattle.tomex_arguments.specs.Faults.{IsRefusedIf};
ghost use Rattle.tomex_command_line.specs.Grammar.{image_app};
ghost use Rattle.tomex_command_line.specs.Values.{IsImageAsked, IsNoImage};

use super::texts::{Texts, command_with_texts, with_argument};
use super::values::{number, word};
use clap::{ArgMatches, Command};
use std::alloc::{AllocError, Global};
use tomex_arguments::{Bounds, LineFault, number_of, word_of};

const BASE: Bounds = Bounds {
    least: 0,
    greatest: 4_294_967_292,
};

const SIZE: Bounds = Bounds {
    least: 4,
    greatest: 1_048_576,
};

/// The image that a command is asked about, and the memory that it is loaded into.
#[derive(Clone, Copy)]
pub struct ImageLine<'a> {
    /// The name of the image's file, as written.
    pub file: &'a str,
    /// The address of memory's first byte.
    pub base: u32,
    /// The size of memory in bytes.
    pub size: u32,
    pub ghost base_within: { base ≤ 4294967292 },
    pub ghost size_from: { 4 ≤ size },
    pub ghost size_to: { size ≤ 1048576 },
}

const IMAGE_HELP: &str = "The file of the image";

const BASE_HELP: &str = "First address, a multiple of 4 to 4294967292";

const SIZE_HELP: &str = "Memory in bytes, a multiple of 4 to 1048576";

/// The command with this name, which takes an image and its memory, and may take more.
pub(super) fn on_image<'a>(
    alloc: Global,
    name: &'a str,
    texts: Texts,
) -> Result<Command<'a>, AllocError>
    ensures { IfOk result (λ c. app_of c ≡ image_app name.entry.now) }
{
    let command = Ok(command_with_texts(alloc, name, texts));
    let command = with_argument(command, word(alloc, "IMAGE", IMAGE_HELP));
    let command = with_argument(command, number(alloc, "base", BASE, "0", BASE_HELP));
    with_argument(command, number(alloc, "size", SIZE, "65536", SIZE_HELP))
}

/// The image that a line of such a command names.
pub(super) fn image_of<'a>(
    alloc: Global,
    matches: &ArgMatches<'a>,
) -> Result<ImageLine<'a>, LineFault>
    ensures image { IfOk result
        (λ image. IsImageAsked (rows_of (found_of matches.now)) image.file.now image.base image.size) }
    ensures refused { IfErr result (IsRefusedIf (IsNoImage (rows_of (found_of matches.now)))) }
{
    Ok(ImageLine {
        file: word_of(alloc, matches, "IMAGE")?,
        base: number_of(alloc, matches, "base", BASE)?,
        size: number_of(alloc, matches, "size", SIZE)?,
    })
}
