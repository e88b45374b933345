//! The file header (System V ABI, "ELF Header"): 52 bytes, and their tests.
ghost use Rattle.std.specs.Prelude.{◌≡◌, ◌+◌, ◌*◌, ◌<◌, ◌≤◌, IfNone, length};
ghost use Rattle.tomex_image.specs.ElfTests.{file_tests};
ghost use Rattle.tomex_image.specs.FileHeader.{entry_of, header_count, header_offset, is_rv32_file};
ghost use Rattle.tomex_image.specs.Tests.{first_failing};

use crate::elf::bytes::{read_half, read_word};
use crate::elf::program_header::PROGRAM_HEADER_SIZE;
use crate::error::ImageError;

/// The size of the file header, in bytes.
const FILE_HEADER_SIZE: usize = 52;

// Offsets of the fields in the file, in bytes, by the standard's names.
const EI_CLASS: usize = 4;

const EI_DATA: usize = 5;

const EI_VERSION: usize = 6;

const E_TYPE: usize = 16;

const E_MACHINE: usize = 18;

const E_ENTRY: usize = 24;

const E_PHOFF: usize = 28;

const E_PHENTSIZE: usize = 42;

const E_PHNUM: usize = 44;

// The required values: 32 bits, low byte first, the current version, executable, RISC-V.
const ELFCLASS32: u8 = 1;

const ELFDATA2LSB: u8 = 1;

const EV_CURRENT: u8 = 1;

const ET_EXEC: u16 = 2;

const EM_RISCV: u16 = 243;

/// True if the file has 32 bits, low byte first, version 1, and is for RISC-V.
fn is_rv32_file(bytes: &[u8]) -> bool
    requires { 52 ≤ length bytes.now }
    ensures { result ≡ is_rv32_file bytes.now }
{
    bytes[EI_CLASS] == ELFCLASS32
        && bytes[EI_DATA] == ELFDATA2LSB
        && bytes[EI_VERSION] == EV_CURRENT
        && read_half(bytes, E_MACHINE) == EM_RISCV
}

/// Where the program headers are in the file, and how many.
#[derive(Clone, Copy)]
pub struct HeaderTable {
    pub offset: usize,
    pub count: usize,
}

/// The table of program headers: `e_phoff` and `e_phnum`.
pub fn header_table(bytes: &[u8]) -> HeaderTable
    requires { 52 ≤ length bytes.now }
    ensures offset { result.offset ≡ header_offset bytes.now }
    ensures count { result.count ≡ header_count bytes.now }
{
    HeaderTable {
        offset: read_word(bytes, E_PHOFF) as usize,
        count: usize::from(read_half(bytes, E_PHNUM)),
    }
}

/// The address of the first instruction: `e_entry`.
pub fn entry_address(bytes: &[u8]) -> u32
    requires { 52 ≤ length bytes.now }
    ensures { result ≡ entry_of bytes.now }
{
    read_word(bytes, E_ENTRY)
}

/// The first test of the file header that fails.
pub fn file_refusal(bytes: &[u8]) -> Option<ImageError>
    ensures value { result ≡ first_failing (file_tests bytes.now) }
    ensures whole { IfNone result (52 ≤ length bytes.now) }
    ensures room { IfNone result (0 < header_count bytes.now
        → header_offset bytes.now + 32 * header_count bytes.now ≤ length bytes.now) }
{
    if bytes.len() < FILE_HEADER_SIZE {
        return Some(ImageError::Truncated);
    }
    let count = read_half(bytes, E_PHNUM);
    if !is_rv32_file(bytes) {
        Some(ImageError::NotRiscv)
    } else if read_half(bytes, E_TYPE) != ET_EXEC {
        Some(ImageError::NotExec)
    } else if count > 0 && read_half(bytes, E_PHENTSIZE) != PROGRAM_HEADER_SIZE {
        Some(ImageError::HeaderSize)
    } else if count > 0
        && (bytes.len() as u64)
            < u64::from(read_word(bytes, E_PHOFF))
                + u64::from(PROGRAM_HEADER_SIZE) * u64::from(count)
    {
        Some(ImageError::Truncated)
    } else {
        None
    }
}
