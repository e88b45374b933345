//! Segments placed in memory (System V ABI, "Program Loading").
ghost use Rattle.std.specs.Prelude.{◌≡◌, ℕ, ◌+◌, ◌<◌, IfOk, length, slice_index, if◌then◌else◌};
ghost use Rattle.std.specs.List.{All};
ghost use Rattle.tomex_image.specs.ElfTests.{Fits};
ghost use Rattle.tomex_image.specs.Placing.{byte_of, file_byte, is_filled};

use crate::elf::program_header::ProgramHeader;
use crate::window::Window;
use std::alloc::{AllocError, Allocator};

/// Copies the file's part of a segment into the memory of the window.
fn place(memory: &mut [u8], bytes: &[u8], window: Window, header: &ProgramHeader)
    requires filled { length memory.old ≡ window.size }
    requires fits { Fits window (length bytes.now) header.now }
    ensures length { length memory.new ≡ length memory.old }
    ensures placed { (k : ℕ) → k < length memory.old → slice_index memory.new k
        ≡ (if is_filled header.now (window.base + k)
        then file_byte bytes.now header.now (window.base + k)
        else slice_index memory.old k) }
{
    if header.file_size > 0 {
        let from = header.offset as usize;
        let at = (header.address - window.base()) as usize;
        let count = header.file_size as usize;
        memory[at..at + count].copy_from_slice(&bytes[from..from + count]);
    }
}

/// The memory of the window with the segments in it, and zeros elsewhere.
///
/// The last segment is copied first: if two of them filled one byte, the earlier one's would stay,
/// as in the definition. Such files are refused, so the order doesn't matter.
pub fn memory_of<A: Allocator>(
    alloc: A,
    bytes: &[u8],
    window: Window,
    segments: &[ProgramHeader],
) -> Result<Vec<u8, A>, AllocError>
    requires { All (Fits window (length bytes.now)) segments.now }
    ensures length { IfOk result (λ v. length v.items ≡ window.size) }
    ensures placed { IfOk result (λ v. (k : ℕ) → k < window.size
        → slice_index v.items k ≡ byte_of bytes.now segments.now (window.base + k)) }
{
    let size = window.size() as usize;
    let mut memory = Vec::with_capacity(alloc, size)?;
    memory.resize(size, 0)?;
    let mut left = segments.len();
    while left > 0 {
        left -= 1;
        place(memory.as_mut_slice(), bytes, window, &segments[left]);
    }
    Ok(memory)
}
