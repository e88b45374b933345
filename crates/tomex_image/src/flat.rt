//! Flat files: raw bytes, loaded at the window's base.
ghost use Rattle.std.specs.Prelude.{◌≡◌, ◌⊎◌, ◌++◌, ◌-◌, ◌≤◌, IfOk, IfErr, None, Some, replicate, length};
ghost use Rattle.tomex_image.specs.Loading.{IsPlacedFlat, flat_tests};
ghost use Rattle.tomex_image.specs.Tests.{first_failing};

use crate::error::ImageError;
use crate::image::Image;
use crate::window::Window;
use std::alloc::{AllocError, Allocator};

/// The bytes, followed by zeros up to `size`.
fn flat_memory<A: Allocator>(alloc: A, bytes: &[u8], size: usize) -> Result<Vec<u8, A>, AllocError>
    requires { length bytes.now ≤ size }
    ensures { IfOk result (λ v. v.items ≡ bytes.now ++ replicate (size - length bytes.now) 0) }
{
    let mut memory = Vec::with_capacity(alloc, size)?;
    memory.extend_from_slice(bytes)?;
    memory.resize(size, 0)?;
    Ok(memory)
}

/// The image of a flat file, whose entry is the window's base.
pub fn load_flat<A: Allocator>(
    alloc: A,
    bytes: &[u8],
    window: Window,
) -> Result<Image<A>, ImageError>
    ensures placed { IfOk result (λ i. IsPlacedFlat bytes.now window i) }
    ensures passed { IfOk result (λ i. first_failing (flat_tests bytes.now window) ≡ None) }
    ensures err { IfErr result
        (λ e. ((e ≡ ImageError.Memory) × (first_failing (flat_tests bytes.now window) ≡ None))
        ⊎ (first_failing (flat_tests bytes.now window) ≡ Some e)) }
{
    if bytes.is_empty() {
        return Err(ImageError::Empty);
    }
    let size = window.size() as usize;
    if bytes.len() > size {
        return Err(ImageError::TooLarge);
    }
    let memory = flat_memory(alloc, bytes, size)?;
    Ok(Image::new(window, memory, window.base()))
}
