//! Program headers (System V ABI, "Program Header"): 32 bytes each.
ghost use Rattle.std.specs.Prelude.{◌≡◌, ◌+◌, ◌≤◌, length};
ghost use Rattle.tomex_image.specs.ProgramHeader.{header_at, is_loadable, names_interpreter, shares_byte, takes_memory};

use crate::elf::bytes::read_word;
use crate::window::Window;

/// The size of a program header, in bytes.
pub const PROGRAM_HEADER_SIZE: u16 = 32;

/// `p_type` of a segment that is loaded.
const PT_LOAD: u32 = 1;

/// `p_type` of a segment that names an interpreter, as dynamic linking does.
const PT_INTERP: u32 = 3;

/// The fields of a program header that matter here. Sizes and the offset in the file are in bytes.
#[derive(Clone, Copy, PartialEq, Eq)]
pub struct ProgramHeader {
    /// `p_type`
    pub kind: u32,
    /// `p_offset`
    pub offset: u32,
    /// `p_vaddr`
    pub address: u32,
    /// `p_filesz`
    pub file_size: u32,
    /// `p_memsz`
    pub memory_size: u32,
}

impl ProgramHeader {
    /// A header without meaning, for places that hold no segment.
    pub const BLANK: ProgramHeader = ProgramHeader {
        kind: 0,
        offset: 0,
        address: 0,
        file_size: 0,
        memory_size: 0,
    };

    /// True if the header asks for an interpreter.
    pub fn names_interpreter(&self) -> bool
        ensures { result ≡ names_interpreter self.now }
    {
        self.kind == PT_INTERP
    }

    /// True if the header is that of a loadable segment.
    pub fn is_loadable(&self) -> bool
        ensures { result ≡ is_loadable self.now }
    {
        self.kind == PT_LOAD
    }

    /// True if the header is that of a loadable segment that takes memory.
    pub fn takes_memory(&self) -> bool
        ensures { result ≡ takes_memory self.now }
    {
        self.is_loadable() && self.memory_size > 0
    }

    /// True if the two segments have a byte of memory in common.
    pub fn shares_byte(&self, other: &ProgramHeader) -> bool
        ensures { result ≡ shares_byte self.now other.now }
    {
        u64::from(self.address) < u64::from(other.address) + u64::from(other.memory_size)
            && u64::from(other.address) < u64::from(self.address) + u64::from(self.memory_size)
    }
}

/// The program header at that offset in the file. `p_paddr`, `p_flags` and `p_align` are ignored.
pub fn read_program_header(bytes: &[u8], offset: usize) -> ProgramHeader
    requires { offset + 32 ≤ length bytes.now }
    ensures { result ≡ header_at bytes.now offset }
{
    ProgramHeader {
        kind: read_word(bytes, offset),
        offset: read_word(bytes, offset + 4),
        address: read_word(bytes, offset + 8),
        file_size: read_word(bytes, offset + 16),
        memory_size: read_word(bytes, offset + 20),
    }
}
