//! Refusals of images.

ghost use Rattle.std.specs.Prelude.{◌≡◌};
ghost use Rattle.tomex_refusals.specs.Images.{advice_of, words_of};

/// A refusal of an image.
#[derive(Clone, Copy)]
pub enum ImageRefusal {
    /// There is nothing to load.
    Empty,
    /// A flat file has more bytes than memory.
    TooLarge,
    /// A header lies beyond the file's end.
    Truncated,
    /// Another machine's file, or one of 64 bits.
    NotRiscv,
    /// It isn't linked to a fixed address.
    NotExecutable,
    /// A header isn't as long as it must be.
    HeaderSize,
    /// It asks for a dynamic linker.
    Dynamic,
    /// More than sixteen are loaded.
    TooManySegments,
    /// A segment lies outside memory.
    Segment,
    /// Two segments share a byte.
    Overlap,
    /// No instruction can be at the entry.
    Entry,
}

const EMPTY: &str = "The file is empty, or it is an ELF file with nothing to load.
Give the linked program, not an object file or an empty one.
";

const TOO_LARGE: &str = "A flat file has more bytes than memory.
Give memory more bytes: `--size N`, or `size = N` in a study, 1048576 at most.
";

const TRUNCATED: &str =
    "The ELF file says that it is longer than it is: it was cut, or is still being
written. Build it again.
";

const NOT_RISCV: &str = "The ELF file is for another machine, or for 64-bit RISC-V.
Compile with `-march=rv32im -mabi=ilp32`; clang also needs `--target=riscv32`.
`readelf -h FILE` must say `ELF32` and `RISC-V`.
";

const NOT_EXECUTABLE: &str =
    "The file is an object file (.o), a shared one (.so), or an executable that is
independent of its position (PIE). `readelf -h FILE` says its type, which must
be EXEC. Link it with `-static -no-pie`.
";

const HEADER_SIZE: &str =
    "The ELF file says that its headers have another size than the format gives
them: it is damaged. Build it again.
";

const DYNAMIC: &str =
    "The program asks for a dynamic linker, and there is none. Link with `-static`.
";

const TOO_MANY_SEGMENTS: &str =
    "The ELF file has more than 16 segments to load. `readelf -l FILE` lists them
(LOAD). Mend the linker script, so that sections share segments.
";

const SEGMENT: &str = "A part of the file lies outside memory, which is one window: `--size` bytes
from `--base` on, 65536 from 0 if nothing else is said. Linkers place programs
from 65536 on unless they are told otherwise, so this is the usual cause.
`readelf -l FILE` says where the parts (LOAD) are: `--base` is at most the least
VirtAddr, and base + size at least the greatest VirtAddr + MemSiz, with room for
the stack after it. All numbers on the command line are decimal:
  tomex run FILE --base 65536 --size 262144
A study says it in the program's table: base = 65536, size = 262144. Or link the
program to begin at 0: -Wl,-Ttext-segment=0 (GNU ld), -Wl,--image-base=0 (lld).
";

const OVERLAP: &str =
    "Two segments share a byte. `readelf -l FILE` lists them (LOAD). Mend the linker
script.
";

const ENTRY: &str = "The address where the program begins is no multiple of 4, or lies outside
memory. `readelf -h FILE` says it (Entry point address). The usual causes:
compressed code (compile with `-march=rv32im`), or no symbol `_start`, from
which linkers take it (or name another: `-Wl,-e,NAME`).
";

impl ImageRefusal {
    /// The words that all such refusals have.
    pub fn words(self) -> &'static str
        ensures { result.now ≡ words_of self }
    {
        match self {
            ImageRefusal::Empty => "image: empty",
            ImageRefusal::TooLarge => "image: too large",
            ImageRefusal::Truncated => "image: truncated",
            ImageRefusal::NotRiscv => "image: not RISC-V",
            ImageRefusal::NotExecutable => "image: not executable",
            ImageRefusal::HeaderSize => "image: header size",
            ImageRefusal::Dynamic => "image: dynamic",
            ImageRefusal::TooManySegments => "image: too many segments",
            ImageRefusal::Segment => "image: segment",
            ImageRefusal::Overlap => "image: overlap",
            ImageRefusal::Entry => "image: entry",
        }
    }

    /// The advice on it: its meaning, the usual causes, and what to do.
    pub fn advice(self) -> &'static str
        ensures { result.now ≡ advice_of self }
    {
        match self {
            ImageRefusal::Empty => EMPTY,
            ImageRefusal::TooLarge => TOO_LARGE,
            ImageRefusal::Truncated => TRUNCATED,
            ImageRefusal::NotRiscv => NOT_RISCV,
            ImageRefusal::NotExecutable => NOT_EXECUTABLE,
            ImageRefusal::HeaderSize => HEADER_SIZE,
            ImageRefusal::Dynamic => DYNAMIC,
            ImageRefusal::TooManySegments => TOO_MANY_SEGMENTS,
            ImageRefusal::Segment => SEGMENT,
            ImageRefusal::Overlap => OVERLAP,
            ImageRefusal::Entry => ENTRY,
        }
    }
}
