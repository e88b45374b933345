//! Loading: from the bytes of a file to an image.
ghost use Rattle.std.specs.Prelude.{◌≡◌, ◌⊎◌, IfOk, IfErr, None, Some};
ghost use Rattle.tomex_image.specs.Loading.{is_elf, IsPlaced, refused};

use crate::elf::load_elf;
use crate::error::ImageError;
use crate::flat::load_flat;
use crate::image::Image;
use crate::window::Window;
use std::alloc::Allocator;

/// True if the bytes begin with the magic number of ELF files (System V ABI, "ELF Identification").
fn has_elf_magic(bytes: &[u8]) -> bool
    ensures { result ≡ is_elf bytes.now }
{
    bytes.len() > 3 && bytes[0] == 0x7f && bytes[1] == 0x45 && bytes[2] == 0x4c && bytes[3] == 0x46
}

/// The image of a file's bytes in `window`.
///
/// Bytes that begin with ELF's magic number are an ELF file of 32 bits; all others are flat, the
/// form that `objcopy -O binary` writes. A refusal names the first test that fails; `Memory` comes
/// only if all tests have passed and there is no memory for the window.
///
/// The work is bounded: a file has at most 65,535 program headers, each of which is tested once
/// against at most 16 earlier segments, and what is then written is at most twice the window's size.
pub fn load<A: Allocator>(alloc: A, bytes: &[u8], window: Window) -> Result<Image<A>, ImageError>
    ensures ok { IfOk result (λ i. IsPlaced bytes.now window i × (refused bytes.now window ≡ None)) }
    ensures err { IfErr result
        (λ e. ((e ≡ ImageError.Memory) × (refused bytes.now window ≡ None)) ⊎ (refused bytes.now window ≡ Some e)) }
{
    if has_elf_magic(bytes) {
        load_elf(alloc, bytes, window)
    } else {
        load_flat(alloc, bytes, window)
    }
}
