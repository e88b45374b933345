//! The tests of a program header, given the segments of the earlier headers.
ghost use Rattle.std.specs.Prelude.{◌≡◌};
ghost use Rattle.std.specs.List.{list_any};
ghost use Rattle.tomex_image.specs.ElfTests.{header_tests};
ghost use Rattle.tomex_image.specs.ProgramHeader.{lies_in, shares_byte};
ghost use Rattle.tomex_image.specs.Tests.{first_failing};

use crate::elf::program_header::ProgramHeader;
use crate::elf::segments::MOST_SEGMENTS;
use crate::error::ImageError;
use crate::window::Window;

/// True if `count` bytes from `address` on lie in the window.
pub fn is_within(window: Window, address: u32, count: u32) -> bool
    ensures { result ≡ lies_in window address count }
{
    let end = window.end();
    window.base() <= address && u64::from(address) + u64::from(count) <= end
}

/// True if one of the segments shares a byte of memory with the header's.
fn overlaps_any(segments: &[ProgramHeader], header: &ProgramHeader) -> bool
    ensures { result ≡ list_any (λ s. shares_byte s header.now) segments.now }
{
    segments.iter().any(|segment| segment.shares_byte(header))
}

/// The first test that a header fails, given the earlier segments. The file has `len` bytes.
pub fn header_refusal(
    window: Window,
    len: usize,
    segments: &[ProgramHeader],
    header: &ProgramHeader,
) -> Option<ImageError>
    ensures { result ≡ first_failing (header_tests window len segments.now header.now) }
{
    let loads = header.is_loadable();
    let takes = header.takes_memory();
    if header.names_interpreter() {
        Some(ImageError::Dynamic)
    } else if loads && header.memory_size < header.file_size {
        Some(ImageError::Segment)
    } else if loads
        && header.file_size > 0
        && (len as u64) < u64::from(header.offset) + u64::from(header.file_size)
    {
        Some(ImageError::Truncated)
    } else if takes && !is_within(window, header.address, header.memory_size) {
        Some(ImageError::Segment)
    } else if takes && segments.len() >= MOST_SEGMENTS {
        Some(ImageError::TooManySegments)
    } else if takes && overlaps_any(segments, header) {
        Some(ImageError::Overlap)
    } else {
        None
    }
}
