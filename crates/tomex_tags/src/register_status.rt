//! The registers, and the station from which each one's value is still to come.

ghost use Rattle.std.specs.Prelude.{◌≡◌, ◌<◌, None, IfSome, replicate, slice_set};
ghost use Rattle.tomex_rvexec.specs.Steps.{is_number};
ghost use Rattle.tomex_tags.specs.Places.{place_at};
ghost use Rattle.tomex_tags.specs.Registers.{operand_in, registers_after, tags_with};

use crate::places::place;
use tomex_timing::{Field, Tag};

/// The registers and their status (Qi). The value of a register with a Qi is not specified.
#[derive(Drop)]
pub struct RegStatus {
    pub values: [u32; 32],
    pub tags: [Option<Tag>; 32],
}

/// True if the tag names the place.
#[inline(always)]
fn names(tag: Option<Tag>, from: usize) -> bool
    ensures { result ≡ is_number (place_at tag) from }
{
    match tag {
        Some(tag) => place(tag) == from,
        None => false,
    }
}

impl RegStatus {
    /// The registers at the start: all zero except x2, and none waits for a result.
    pub fn new(stack: u32) -> RegStatus
        ensures values { result.values ≡ slice_set (replicate 32 0) 2 stack }
        ensures tags { result.tags ≡ replicate 32 None }
    {
        let mut values = [0; 32];
        values[2] = stack;
        RegStatus {
            values,
            tags: [None; 32],
        }
    }

    /// The operand that a source register gives: its value, or the tag in its Qi.
    #[inline(always)]
    pub fn read(&self, source: Option<u8>) -> Field
        requires { IfSome source (λ r. r < 32) }
        ensures { result ≡ operand_in self.now source }
    {
        match source {
            None => Field::Unread,
            Some(register) => match self.tags[register as usize] {
                Some(tag) => Field::Waits(tag),
                None => Field::Value(self.values[register as usize]),
            },
        }
    }

    /// Makes a destination wait for a station's result.
    #[inline(always)]
    pub(crate) fn await_result(&mut self, dest: Option<u8>, tag: Tag)
        requires { IfSome dest (λ r. r < 32) }
        ensures values { self.new.values ≡ self.old.values }
        ensures tags { self.new.tags ≡ tags_with self.old.tags dest tag }
    {
        if let Some(register) = dest {
            self.tags[register as usize] = Some(tag);
        }
    }

    /// Writes the value that a place sends, if the register still waits for it.
    #[inline(always)]
    pub(crate) fn receive(&mut self, register: u8, from: usize, value: u32)
        requires { register < 32 }
        ensures { self.new ≡ registers_after self.old register from value }
    {
        let register = register as usize;
        if names(self.tags[register], from) {
            self.values[register] = value;
            self.tags[register] = None;
        }
    }
}
