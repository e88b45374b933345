//! An ELF file with one segment: a window's whole memory.

ghost use Rattle.std.specs.Prelude.{◌≡◌, ◌+◌, ◌<◌, ◌^◌, ◌++◌, IfOk, OnOk, length};
ghost use Rattle.tomex_elf.specs.File.{file_header, file_of, halves, headers, program_header, words};

use std::alloc::{AllocError, Allocator};
use tomex_image::Window;

/// The bytes of both headers.
pub const HEADERS: usize = 84;

/// ELF's magic number, 32 bits, low byte first, version 1.
const IDENTIFICATION: [u8; 16] = [0x7f, 0x45, 0x4c, 0x46, 1, 1, 1, 0, 0, 0, 0, 0, 0, 0, 0, 0];

/// What the file header says of sections.
#[derive(Clone, Copy)]
pub struct SectionTable {
    /// Where in the file their headers begin: `e_shoff`.
    pub offset: u32,
    /// The size of a header: `e_shentsize`.
    pub header_size: u16,
    /// How many there are: `e_shnum`.
    pub count: u16,
    /// The number of the one that has their names: `e_shstrndx`.
    pub names: u16,
}

/// There are no sections.
const NO_SECTIONS: SectionTable = SectionTable {
    offset: 0,
    header_size: 0,
    count: 0,
    names: 0,
};

/// Appends two bytes for each number, the low one first.
pub fn push_halves<A: Allocator>(file: &mut Vec<u8, A>, values: &[u16]) -> Result<(), AllocError>
    ensures { OnOk result (file.new.items ≡ file.old.items ++ halves values.now) }
{
    for value in values {
        file.extend_from_slice(value.to_le_bytes().as_slice())?;
    }
    Ok(())
}

/// Appends four bytes for each number, the low one first.
pub fn push_words<A: Allocator>(file: &mut Vec<u8, A>, values: &[u32]) -> Result<(), AllocError>
    ensures { OnOk result (file.new.items ≡ file.old.items ++ words values.now) }
{
    for value in values {
        file.extend_from_slice(value.to_le_bytes().as_slice())?;
    }
    Ok(())
}

/// Appends the file header of an executable for RISC-V, which its program header follows.
fn push_file_header<A: Allocator>(
    file: &mut Vec<u8, A>,
    entry: u32,
    sections: SectionTable,
) -> Result<(), AllocError>
    ensures { OnOk result (file.new.items ≡ file.old.items ++ file_header entry sections) }
{
    file.extend_from_slice(IDENTIFICATION.as_slice())?;
    push_halves(file, [2, 243].as_slice())?;
    push_words(file, [1, entry, 52, sections.offset, 0].as_slice())?;
    push_halves(
        file,
        [
            52,
            32,
            1,
            sections.header_size,
            sections.count,
            sections.names,
        ]
        .as_slice(),
    )
}

/// Appends the program header of a segment that is a whole window.
fn push_program_header<A: Allocator>(
    file: &mut Vec<u8, A>,
    base: u32,
    size: u32,
) -> Result<(), AllocError>
    ensures { OnOk result (file.new.items
        ≡ file.old.items ++ program_header (record { base = base; size = size })) }
{
    push_words(file, [1, 84, base, base, size, size, 7, 4].as_slice())
}

/// Appends both headers of a window.
pub fn push_headers<A: Allocator>(
    file: &mut Vec<u8, A>,
    base: u32,
    size: u32,
    entry: u32,
    sections: SectionTable,
) -> Result<(), AllocError>
    ensures { OnOk result (file.new.items
        ≡ file.old.items ++ headers (record { base = base; size = size }) entry sections) }
{
    push_file_header(file, entry, sections)?;
    push_program_header(file, base, size)
}

/// The file of a window's memory.
pub fn file_of<A: Allocator>(
    alloc: A,
    window: Window,
    entry: u32,
    memory: &[u8],
) -> Result<Vec<u8, A>, AllocError>
    requires { length memory.now < 2 ^ 32 }
    ensures { IfOk result (λ file. file.items ≡ file_of window entry memory.now) }
{
    let mut file = Vec::with_capacity(alloc, HEADERS + memory.len())?;
    push_headers(&mut file, window.base(), window.size(), entry, NO_SECTIONS)?;
    file.extend_from_slice(memory)?;
    Ok(file)
}
