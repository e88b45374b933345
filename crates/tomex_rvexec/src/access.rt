//! Loads and stores by address: what an access reads or writes if all of its bytes are in memory.

ghost use Rattle.std.specs.Prelude.{◌≡◌};
ghost use Rattle.tomex_rvexec.specs.Memory.{from_byte, from_half};

use crate::memory::Memory;
use std::alloc::Allocator;

/// A byte whose sign is extended to 32 bits.
fn from_signed_byte(byte: u8) -> u32
    ensures { result ≡ from_byte byte }
{
    let value = u32::from(byte);
    if value < 0x80 {
        value
    } else {
        value + 0xffff_ff00
    }
}

/// Two bytes whose sign is extended to 32 bits.
fn from_signed_half(half: u16) -> u32
    ensures { result ≡ from_half half }
{
    let value = u32::from(half);
    if value < 0x8000 {
        value
    } else {
        value + 0xffff_0000
    }
}

impl<A: Allocator> Memory<A> {
    ghost use Rattle.std.specs.Prelude.{◌≡◌, ◌-◌, true, false};
    ghost use Rattle.tomex_rvexec.specs.Access.{HasStoredAt, HasWritten, IsLoadedFrom};
    ghost use Rattle.tomex_rvexec.specs.Memory.{from_byte, from_half, byte_read, half_read, word_read, byte_written};
    ghost use Rattle.tomex_rvexec.specs.Memory.{half_written, word_written};

    /// The byte at an address, its sign extended; `None` if it lies outside memory.
    #[inline(always)]
    pub fn load_byte(&self, address: u32) -> Option<u32>
        ensures { IsLoadedFrom self.now address 1 (λ m i. from_byte (byte_read m i)) result }
    {
        let place = self.place(address, 1)?;
        Some(from_signed_byte(self.byte(place)))
    }

    /// The two bytes at an address, their sign extended.
    #[inline(always)]
    pub fn load_half(&self, address: u32) -> Option<u32>
        ensures { IsLoadedFrom self.now address 2 (λ m i. from_half (half_read m i)) result }
    {
        let place = self.place(address, 2)?;
        Some(from_signed_half(self.half(place)))
    }

    /// The four bytes at an address.
    #[inline(always)]
    pub fn load_word(&self, address: u32) -> Option<u32>
        ensures { IsLoadedFrom self.now address 4 word_read result }
    {
        let place = self.place(address, 4)?;
        Some(self.word(place))
    }

    /// The byte at an address, extended with zeros.
    #[inline(always)]
    pub fn load_byte_unsigned(&self, address: u32) -> Option<u32>
        ensures { IsLoadedFrom self.now address 1 byte_read result }
    {
        let place = self.place(address, 1)?;
        Some(u32::from(self.byte(place)))
    }

    /// The two bytes at an address, extended with zeros.
    #[inline(always)]
    pub fn load_half_unsigned(&self, address: u32) -> Option<u32>
        ensures { IsLoadedFrom self.now address 2 half_read result }
    {
        let place = self.place(address, 2)?;
        Some(u32::from(self.half(place)))
    }

    /// Writes the low byte of a word at an address; true if the address lies in memory.
    #[inline(always)]
    pub fn store_byte(&mut self, address: u32, value: u32) -> bool
        ensures place { HasStoredAt address 1
            (λ m i. byte_written m i value) self.old result self.new }
        ensures bytes { HasWritten 1 address value self.old self.new }
    {
        match self.place(address, 1) {
            Some(place) => {
                self.set_byte(place, value);
                true
            }
            None => false,
        }
    }

    /// Writes the low two bytes of a word.
    #[inline(always)]
    pub fn store_half(&mut self, address: u32, value: u32) -> bool
        ensures place { HasStoredAt address 2
            (λ m i. half_written m i value) self.old result self.new }
        ensures bytes { HasWritten 2 address value self.old self.new }
    {
        match self.place(address, 2) {
            Some(place) => {
                self.set_half(place, value);
                true
            }
            None => false,
        }
    }

    /// Writes a word.
    #[inline(always)]
    pub fn store_word(&mut self, address: u32, value: u32) -> bool
        ensures place { HasStoredAt address 4
            (λ m i. word_written m i value) self.old result self.new }
        ensures bytes { HasWritten 4 address value self.old self.new }
    {
        match self.place(address, 4) {
            Some(place) => {
                self.set_word(place, value);
                true
            }
            None => false,
        }
    }
}
