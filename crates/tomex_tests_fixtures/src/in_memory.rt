//! A sink and files in memory, for tests of what the program reads and writes.
ghost use Rattle.std.specs.Prelude.{◌≡◌, Some, find, option_copied};
ghost use Rattle.std.specs.Str.{bytes_eq};
ghost use Rattle.tomex_streams.specs.Files.{known_of};

use std::alloc::{Allocator, Global};
use tomex_streams::{Files, PutFault, ReadFault, Sink};

/// A sink in memory: it takes at most `step` bytes a put and `room` in all, and then fails, or
/// takes nothing if `is_silent`.
#[derive(Drop)]
pub struct Narrow {
    pub bytes: Vec<u8>,
    pub room: usize,
    pub step: usize,
    pub is_silent: bool,
    pub faults: u64,
    pub is_terminal: bool,
}

impl Narrow {
    pub fn new(alloc: Global, room: usize, step: usize) -> Narrow {
        Narrow {
            bytes: Vec::new(alloc),
            room,
            step,
            is_silent: false,
            faults: 0,
            is_terminal: false,
        }
    }
}

impl Sink for Narrow {
    ghost seen = { λ sink. record { taken = Some sink.bytes.items; faults = sink.faults } };

    ghost terminal = { λ sink. sink.is_terminal };

    fn is_terminal(&self) -> bool {
        self.is_terminal
    }

    fn put(&mut self, piece: &[u8]) -> Result<usize, PutFault> {
        let count = piece.len().min(self.room).min(self.step);
        let is_fault = count == 0 && !piece.is_empty();
        if is_fault {
            self.faults = self.faults.saturating_add(1);
            return if self.is_silent { Ok(0) } else { Err(PutFault) };
        }
        if self.bytes.extend_from_slice(&piece[..count]).is_err() {
            self.faults = self.faults.saturating_add(1);
            return Err(PutFault);
        }
        self.room -= count;
        Ok(count)
    }
}

/// Files in memory, by their names. There are no others.
#[derive(Clone, Copy)]
pub struct Shelf<'a> {
    pub files: &'a [(&'a str, &'a [u8])],
}

impl<'a> Shelf<'a> {
    /// The name and the bytes of the file with this name.
    fn entry(&self, name: &str) -> Option<&(&'a str, &'a [u8])>
        ensures { option_copied result ≡ find (λ f. bytes_eq f.0.now name.now) self.now.files.now }
    {
        self.files.iter().find(|entry| entry.0 == name)
    }
}

impl<'a> Files for Shelf<'a> {
    ghost file = { λ shelf name. known_of (find (λ f. bytes_eq f.0.now name) shelf.files.now) };

    fn read<A: Allocator>(&self, alloc: A, name: &str) -> Result<Vec<u8, A>, ReadFault> {
        match self.entry(name) {
            Some(entry) => {
                let mut copy = Vec::new(alloc);
                match copy.extend_from_slice(entry.1) {
                    Ok(()) => Ok(copy),
                    Err(_) => Err(ReadFault::Memory),
                }
            }
            None => Err(ReadFault::NoFile),
        }
    }
}
