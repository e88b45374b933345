//! ELF files of 32 bits (System V ABI, chapters "Object Files" and "Program Loading and Dynamic
//! Linking"): read, tested, and placed in memory.
ghost use Rattle.std.specs.Prelude.{◌≡◌, ◌⊎◌, IfOk, IfErr, None, Some};
ghost use Rattle.tomex_image.specs.Loading.{IsPlacedElf};
ghost use Rattle.tomex_image.specs.ElfTests.{elf_tests};
ghost use Rattle.tomex_image.specs.Tests.{first_failing};

pub mod bytes;
mod executable;
mod file_header;
pub mod laws;
mod placing;
mod program_header;
mod refusals;
mod segments;

use crate::elf::executable::executable_of;
use crate::elf::placing::memory_of;
use crate::error::ImageError;
use crate::image::Image;
use crate::window::Window;
use std::alloc::Allocator;

/// The image of an ELF file.
pub fn load_elf<A: Allocator>(
    alloc: A,
    bytes: &[u8],
    window: Window,
) -> Result<Image<A>, ImageError>
    ensures placed { IfOk result (λ i. IsPlacedElf bytes.now window i) }
    ensures passed { IfOk result (λ i. first_failing (elf_tests bytes.now window) ≡ None) }
    ensures err { IfErr result
        (λ e. ((e ≡ ImageError.Memory) × (first_failing (elf_tests bytes.now window) ≡ None))
        ⊎ (first_failing (elf_tests bytes.now window) ≡ Some e)) }
{
    let executable = executable_of(bytes, window)?;
    let memory = memory_of(alloc, bytes, window, executable.segments.as_slice())?;
    Ok(Image::new(window, memory, executable.entry))
}
