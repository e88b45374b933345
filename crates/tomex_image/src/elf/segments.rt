//! The segments of a file, kept in the value itself: they take no memory.
ghost use Rattle.std.specs.Prelude.{◌≡◌, ◌<◌, ◌≤◌, [], ◌∷◌, ◌++◌, length};
ghost use Rattle.tomex_image.specs.declared.elf.segments.TheConstants.{MOST_SEGMENTS};

use crate::elf::program_header::ProgramHeader;
use std::marker::Model;

/// The most segments with memory that a file may have.
pub const MOST_SEGMENTS: usize = 16;

/// The headers of the segments that take memory, in the order of the file.
#[derive(Drop)]
pub struct Segments {
    headers: [ProgramHeader; MOST_SEGMENTS],
    count: usize,
}

impl Model for Segments {
    ghost use Rattle.std.specs.Prelude.{List, take, ◌≤◌};
    ghost use Rattle.tomex_image.specs.declared.elf.program_header.ProgramHeader.{ProgramHeader};
    ghost use Rattle.tomex_image.specs.declared.elf.segments.TheConstants.{MOST_SEGMENTS};

    ghost Value = { List ProgramHeader };

    ghost view = { λ s. take s.count s.headers };

    ghost invariant = { λ s. s.count ≤ MOST_SEGMENTS };
}

impl Segments {
    /// No segments.
    pub fn new() -> Self
        ensures { result ≡ [] }
    {
        Segments {
            headers: [ProgramHeader::BLANK; MOST_SEGMENTS],
            count: 0,
        }
    }

    /// The segments, in order.
    pub fn as_slice(&self) -> &[ProgramHeader]
        ensures value { result.now ≡ self.now }
        ensures within { length result.now ≤ MOST_SEGMENTS }
    {
        &self.headers[..self.count]
    }

    /// Appends a segment.
    pub fn push(&mut self, header: ProgramHeader)
        requires { length self.old < MOST_SEGMENTS }
        ensures { self.new ≡ self.old ++ header ∷ [] }
    {
        let place = self.count;
        self.headers[place] = header;
        self.count = place + 1;
    }
}
