//! Why bytes can't be loaded.
ghost use Rattle.std.specs.Prelude.{◌≡◌};
ghost use Rattle.tomex_image.specs.declared.error.ImageError.TheVariants.{Memory};

use std::alloc::AllocError;
use thiserror::Error;

/// Why bytes can't be loaded into a window. `Memory` says nothing about the bytes.
#[derive(Clone, Copy, Debug, Drop, Error, PartialEq, Eq)]
pub enum ImageError {
    /// No bytes, or an ELF file without a segment that takes memory.
    #[error("empty")]
    Empty,
    /// A flat file with more bytes than the window.
    #[error("too large")]
    TooLarge,
    /// The file ends before something that a header says is in it.
    #[error("truncated")]
    Truncated,
    /// An ELF file that isn't of 32 bits, low byte first, for RISC-V.
    #[error("not RISC-V")]
    NotRiscv,
    /// An ELF file of another type than executable.
    #[error("not executable")]
    NotExec,
    /// Program headers are not 32 bytes.
    #[error("header size")]
    HeaderSize,
    /// The file asks for an interpreter, so it is linked dynamically.
    #[error("dynamic")]
    Dynamic,
    /// A segment that is longer in the file than in memory, or that leaves the window.
    #[error("segment")]
    Segment,
    /// Two segments have a byte of memory in common.
    #[error("overlap")]
    Overlap,
    /// More segments than the limit.
    #[error("too many segments")]
    TooManySegments,
    /// The entry is not a multiple of 4, or its word leaves the window.
    #[error("entry")]
    Entry,
    /// Out of memory for the window.
    #[error("out of memory")]
    Memory,
}

impl From<AllocError> for ImageError {
    ghost from_gives = { λ _ e. e ≡ Memory };

    fn from(_error: AllocError) -> Self {
        ImageError::Memory
    }
}
