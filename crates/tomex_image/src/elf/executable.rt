//! The executable of an ELF file, or the first test that fails.
ghost use Rattle.std.specs.Prelude.{◌≡◌, ◌+◌, ◌*◌, ◌%◌, ◌<◌, ◌≤◌, IfOk, IfErr, length, [], Some, None};
ghost use Rattle.std.specs.List.{All};
ghost use Rattle.tomex_image.specs.ElfTests.{Fits, IsEntry, elf_tests, table_tests};
ghost use Rattle.tomex_image.specs.FileHeader.{entry_of};
ghost use Rattle.tomex_image.specs.ProgramHeader.{headers_from, segments_from, segments_of};
ghost use Rattle.tomex_image.specs.Tests.{first_failing};

use crate::elf::file_header::{HeaderTable, entry_address, file_refusal, header_table};
use crate::elf::program_header::{PROGRAM_HEADER_SIZE, read_program_header};
use crate::elf::refusals::{header_refusal, is_within};
use crate::elf::segments::Segments;
use crate::error::ImageError;
use crate::window::Window;

/// The executable in a file that passes all tests: its segments and the address of its first
/// instruction.
#[derive(Drop)]
pub struct Executable {
    pub segments: Segments,
    pub entry: u32,
}

/// The segments of a table of headers, or the first test that fails, of the headers and of the
/// whole.
fn segments_in(
    bytes: &[u8],
    window: Window,
    table: HeaderTable,
    entry: u32,
) -> Result<Segments, ImageError>
    requires { 0 < table.count → table.offset + 32 * table.count ≤ length bytes.now }
    ensures passed { IfOk result (λ v.
        first_failing (table_tests window bytes.now entry table.offset table.count) ≡ None) }
    ensures found { IfOk result
        (λ v. v ≡ segments_from [] (headers_from bytes.now table.offset table.count)) }
    ensures entry { IfOk result (λ v. IsEntry window entry) }
    ensures err { IfErr result (λ e.
        first_failing (table_tests window bytes.now entry table.offset table.count) ≡ Some e) }
{
    let mut segments = Segments::new();
    let mut offset = table.offset;
    for _k in 0..table.count {
        let header = read_program_header(bytes, offset);
        if let Some(error) = header_refusal(window, bytes.len(), segments.as_slice(), &header) {
            return Err(error);
        }
        if header.takes_memory() {
            segments.push(header);
        }
        offset += usize::from(PROGRAM_HEADER_SIZE);
    }
    if segments.as_slice().is_empty() {
        return Err(ImageError::Empty);
    }
    if entry % 4 != 0 || !is_within(window, entry, 4) {
        return Err(ImageError::Entry);
    }
    Ok(segments)
}

/// The executable of an ELF file, or the first test that fails.
pub fn executable_of(bytes: &[u8], window: Window) -> Result<Executable, ImageError>
    ensures passed { IfOk result (λ r. first_failing (elf_tests bytes.now window) ≡ None) }
    ensures segments { IfOk result (λ r. r.segments ≡ segments_of bytes.now) }
    ensures entry { IfOk result (λ r. (r.entry ≡ entry_of bytes.now) × IsEntry window r.entry) }
    ensures fit { IfOk result (λ r. All (Fits window (length bytes.now)) r.segments) }
    ensures err { IfErr result (λ e. first_failing (elf_tests bytes.now window) ≡ Some e) }
{
    if let Some(error) = file_refusal(bytes) {
        return Err(error);
    }
    let entry = entry_address(bytes);
    let segments = segments_in(bytes, window, header_table(bytes), entry)?;
    Ok(Executable { segments, entry })
}
