//! A cache of decoded instructions.

ghost use Rattle.std.specs.Prelude.{◌≡◌, slice_set, IfSome, Some, Ok};
ghost use Rattle.tomex_image.specs.Image.{Loaded};
ghost use Rattle.tomex_rvexec.specs.Fetch.{instruction_at, kept_at, line_of, IsCacheOf};

use tomex_rvdec::Instr;

/// The number of lines, each for one instruction.
const LINES: usize = 1024;

/// An instruction and its address.
#[derive(Clone, Copy)]
pub struct Line {
    pub pc: u32,
    pub instr: Instr,
}

/// Recently decoded instructions, by address: a direct-mapped cache with a line for each word of 4
/// KiB, so that a loop is decoded once.
#[derive(Drop)]
pub struct DecodeCache {
    pub lines: [Option<Line>; LINES],
}

impl DecodeCache {
    /// An empty cache.
    pub fn new() -> Self
        ensures { (i : Loaded) → IsCacheOf i result }
    {
        DecodeCache {
            lines: [None; LINES],
        }
    }

    /// The instruction at an address, if the cache has it.
    #[inline(always)]
    pub fn get(&self, pc: u32) -> Option<Instr>
        ensures value { result ≡ kept_at self.now pc }
        ensures of_image { IfSome result
            (λ x. (i : Loaded) → IsCacheOf i self.now → instruction_at i pc ≡ Ok x) }
    {
        let line = self.lines[pc as usize / 4 % LINES];
        match line {
            Some(line) if line.pc == pc => Some(line.instr),
            _ => None,
        }
    }

    /// Keeps an instruction, in place of the one in its line.
    pub fn keep(&mut self, pc: u32, instr: Instr)
        ensures line { self.new.lines
            ≡ slice_set self.old.lines (line_of pc) (Some (record { pc = pc; instr = instr })) }
        ensures of_image { (i : Loaded) → IsCacheOf i self.old → instruction_at i pc ≡ Ok instr
            → IsCacheOf i self.new }
    {
        self.lines[pc as usize / 4 % LINES] = Some(Line { pc, instr });
    }
}
