//! Where a program's next byte goes.

ghost use Rattle.std.specs.Prelude.{◌≡◌, ◌≤◌, ◌<◌, IfSome, ℕ};
ghost use Rattle.tomex_asm_places.specs.Positions.{AreFew, alignment_of, data_at, end_of, grown, here, in_section};
ghost use Rattle.tomex_asm_places.specs.Positions.{is_small, is_within, load_size, offset_in, padding, past_in, longer};

use tomex_asm_numbers::{Number, low};
use tomex_asm_text::{Alignment, Section};

/// The most bytes of a program.
pub const LARGEST: u64 = 1048576;

/// Where the next byte goes: a section, and how many bytes each section has so far.
#[derive(Clone, Copy)]
pub struct Position {
    pub section: Section,
    pub text_size: u32,
    pub data_size: u32,
}

impl Position {
    /// The beginning of a program.
    pub fn start() -> Position
        ensures { result ≡ record { section = Section.Text; text_size = 0; data_size = 0 } }
    {
        Position {
            section: Section::Text,
            text_size: 0,
            data_size: 0,
        }
    }

    /// How many bytes the section has.
    pub fn offset(self) -> u32
        ensures { result ≡ offset_in self.section self }
    {
        match self.section {
            Section::Text => self.text_size,
            Section::Data => self.data_size,
        }
    }

    /// The address of the next byte.
    pub fn here(self) -> Number
        ensures { result ≡ here self }
    {
        Number::address(self.section, self.offset())
    }

    /// The same in a section.
    pub fn in_section(self, section: Section) -> Position
        ensures { result ≡ in_section section self }
    {
        Position {
            section,
            text_size: self.text_size,
            data_size: self.data_size,
        }
    }

    /// Where the data begins if the text begins at `base`.
    pub fn data_at(self, base: u32) -> u64
        ensures value { result ≡ data_at base self }
        ensures small { result ≤ 8589934592 }
    {
        (u64::from(base) + u64::from(self.text_size) + 15) / 16 * 16
    }

    /// Right after the last byte of the memory.
    pub fn end(self, base: u32) -> u64
        ensures value { result ≡ end_of base self }
        ensures order { base ≤ result }
    {
        (self.data_at(base) + u64::from(self.data_size) + 3) / 4 * 4
    }

    fn is_within(self, base: u32) -> bool
        ensures { result ≡ is_within base self }
    {
        let end = self.end(base);
        end - u64::from(base) <= LARGEST && end <= 1 << 32
    }

    /// After `size` bytes more in the section; `size` isn't above 2^20.
    fn longer(self, size: u32) -> Position
        requires few { AreFew self }
        requires small { size ≤ 1048576 }
        ensures { result ≡ longer self.section size self }
    {
        match self.section {
            Section::Text => Position {
                section: self.section,
                text_size: self.text_size + size,
                data_size: self.data_size,
            },
            Section::Data => Position {
                section: self.section,
                text_size: self.text_size,
                data_size: self.data_size + size,
            },
        }
    }

    /// After `size` bytes more in the section, if the program isn't too large.
    pub fn grown(self, base: u32, size: usize) -> Option<Position>
        requires { AreFew self }
        ensures value { result ≡ grown base size self }
        ensures few { IfSome result (λ p. AreFew p) }
    {
        if size as u64 > LARGEST {
            return None;
        }
        let position = self.longer(size as u32);
        if position.is_within(base) {
            Some(position)
        } else {
            None
        }
    }

    /// How many bytes there are to a multiple of the alignment.
    pub fn padding(self, base: u32, alignment: u32) -> usize
        requires { 0 < alignment }
        ensures { result ≡ padding base self alignment }
    {
        let past = match self.section {
            Section::Text => u64::from(base) + u64::from(self.text_size),
            Section::Data => u64::from(self.data_size),
        };
        let alignment = u64::from(alignment);
        ((alignment - past % alignment) % alignment) as usize
    }
}

/// To a multiple of how many bytes an alignment goes.
pub fn alignment_of(alignment: Alignment, value: i64) -> Option<u32>
    ensures value { result ≡ alignment_of alignment value }
    ensures some { IfSome result (λ m. 0 < m) }
{
    match alignment {
        Alignment::Power => match value {
            0 => Some(1),
            1 => Some(2),
            2 => Some(4),
            3 => Some(8),
            4 => Some(16),
            _ => None,
        },
        Alignment::Bytes => match value {
            1 => Some(1),
            2 => Some(2),
            4 => Some(4),
            8 => Some(8),
            16 => Some(16),
            _ => None,
        },
    }
}

/// True if `addi` can hold the number, which is taken modulo 2^32.
pub fn is_small(value: u32) -> bool
    ensures { result ≡ is_small value }
{
    value.wrapping_add(2048) <= 4095
}

/// The bytes of `li`.
pub fn load_size(value: u32) -> usize
    ensures { result ≡ load_size value }
{
    if is_small(value) || low(value) == 0 {
        4
    } else {
        8
    }
}
