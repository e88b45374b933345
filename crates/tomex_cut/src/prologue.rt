//! The prologue, and the EBREAK at the end, as they are written into a memory.

ghost use Rattle.std.specs.Prelude.{◌≡◌, ◌⊎◌, ◌+◌, ◌-◌, ◌*◌, ◌%◌, ◌<◌, ◌≤◌, ◌^◌, ℕ, IfSome, length, slice_index};
ghost use Rattle.tomex_cut.specs.Prologue.{HasHook, HasPair, HasPlace, HasPrologue, HasWord, ebreak};
ghost use Rattle.tomex_cut.specs.Writing.{EndFits, FitIn, Rewrites};
ghost use Rattle.tomex_rvexec.specs.Memory.{word_read};

use crate::encoding::{branch_word, ebreak_word, jump_word, lower_word, upper_word};
use std::alloc::Allocator;
use tomex_rvexec::Memory;

/// Writes a word at an address.
fn write_word<A: Allocator>(memory: &mut Memory<A>, at: u32, word: u32)
    requires inside { (memory.old.base ≤ at) × (at + 4 ≤ memory.old.base + length memory.old.bytes) }
    ensures word { word_read memory.new.bytes (at - memory.new.base) ≡ word }
    ensures others { Rewrites at (at + 4) memory.old memory.new }
{
    let place = (at - memory.base()) as usize;
    memory.set_word(place, word);
}

/// Writes the two instructions that load a register.
fn write_pair<A: Allocator>(memory: &mut Memory<A>, at: u32, register: u32, value: u32)
    requires register { register < 32 }
    requires fits { at + 8 ≤ 2 ^ 32 }
    requires inside { (memory.old.base ≤ at) × (at + 8 ≤ memory.old.base + length memory.old.bytes) }
    ensures pair { HasPair memory.new at register value }
    ensures others { Rewrites at (at + 8) memory.old memory.new }
{
    write_word(memory, at, upper_word(register, value));
    write_word(memory, at + 4, lower_word(register, value));
}

/// Writes the place: the pairs of x1 to x30, and the jump to the hook.
fn write_place<A: Allocator>(memory: &mut Memory<A>, at: u32, hook: u32, registers: &[u32; 32])
    requires fits { at + 244 ≤ 2 ^ 32 }
    requires inside { (memory.old.base ≤ at) × (at + 244 ≤ memory.old.base + length memory.old.bytes) }
    requires words { (at % 4 ≡ 0) × (hook % 4 ≡ 0) }
    requires near { (hook < at + 240 + 2 ^ 20) × (at + 240 < hook + 2 ^ 20) }
    ensures place { HasPlace memory.new at hook registers.now }
    ensures others { Rewrites at (at + 244) memory.old memory.new }
{
    for register in 1..31 {
        let value = registers[register as usize];
        write_pair(memory, at + 8 * (register - 1), register, value);
    }
    let last = at + 240;
    write_word(memory, last, jump_word(last, hook));
}

/// Writes the hook: the pair of x31, and the branch to the part's first pc.
fn write_hook<A: Allocator>(memory: &mut Memory<A>, at: u32, pc: u32, registers: &[u32; 32])
    requires fits { at + 12 ≤ 2 ^ 32 }
    requires inside { (memory.old.base ≤ at) × (at + 12 ≤ memory.old.base + length memory.old.bytes) }
    requires words { (at % 4 ≡ 0) × (pc % 4 ≡ 0) }
    requires near { (at + 8 ≤ pc + 4096) × (pc ≤ at + 8 + 4094) }
    ensures hook { HasHook memory.new at pc registers.now }
    ensures others { Rewrites at (at + 12) memory.old memory.new }
{
    write_pair(memory, at, 31, registers[31]);
    let last = at + 8;
    write_word(memory, last, branch_word(last, pc));
}

/// Writes an EBREAK.
fn write_ebreak<A: Allocator>(memory: &mut Memory<A>, at: u32)
    requires inside { (memory.old.base ≤ at) × (at + 4 ≤ memory.old.base + length memory.old.bytes) }
    ensures word { HasWord memory.new at ebreak }
    ensures others { Rewrites at (at + 4) memory.old memory.new }
{
    write_word(memory, at, ebreak_word());
}

/// Writes a prologue, which loads the registers and goes to the pc, and an EBREAK at the end.
pub(crate) fn write_prologue<A: Allocator>(
    memory: &mut Memory<A>,
    hook: u32,
    place: u32,
    end: Option<u32>,
    pc: u32,
    registers: &[u32; 32],
)
    requires room { FitIn memory.old pc hook place }
    requires end { IfSome end (λ e. EndFits memory.old hook place e) }
    ensures { HasPrologue memory.old pc registers.now end hook place memory.new }
{
    write_place(memory, place, hook, registers);
    write_hook(memory, hook, pc, registers);
    if let Some(end) = end {
        write_ebreak(memory, end);
    }
}
