//! The image that a line names.
ghost use Rattle.std.specs.Prelude.{IfOk, IfErr};
ghost use Rattle.tomex_command.specs.ImageLines.{IsImageFailure, IsImageIn, IsImageOf};

use super::reading::read;
use crate::failure::Failure;
use std::alloc::{Allocator, Global};
use tomex_command_line::ImageLine;
use tomex_image::{Image, Window, load};
use tomex_streams::Files;

/// The image of a line, loaded into its memory. The window is tested before the file is read.
pub fn image_of<F: Files, A: Allocator + Clone>(
    alloc: A,
    heap: Global,
    files: &F,
    line: ImageLine<'_>,
) -> Result<Image<A>, Failure>
    ensures image { IfOk result (λ image. IsImageOf (F.file files.now) line.entry image) }
    ensures failure { IfErr result (λ failure. IsImageFailure (F.file files.now) line.entry failure) }
{
    let window = Window::new(line.base, line.size).ok_or(Failure::BadWindow)?;
    let bytes = read(alloc.clone()?, heap, files, line.file)?;
    Ok(load(alloc, bytes.as_slice(), window)?)
}

/// An image, and the bytes of its file.
#[derive(Drop)]
pub struct ImageFile<A: Allocator> {
    pub bytes: Vec<u8, A>,
    pub image: Image<A>,
}

/// The same with the bytes of its file.
pub fn image_file_of<F: Files, A: Allocator + Clone>(
    alloc: A,
    heap: Global,
    files: &F,
    line: ImageLine<'_>,
) -> Result<ImageFile<A>, Failure>
    ensures file { IfOk result (λ f. IsImageIn (F.file files.now) line.entry f.bytes.items f.image) }
    ensures failure { IfErr result (λ failure. IsImageFailure (F.file files.now) line.entry failure) }
{
    let window = Window::new(line.base, line.size).ok_or(Failure::BadWindow)?;
    let bytes = read(alloc.clone()?, heap, files, line.file)?;
    let image = load(alloc, bytes.as_slice(), window)?;
    Ok(ImageFile { bytes, image })
}
