//! The second pass: the bytes of each statement.

ghost use Rattle.std.specs.Prelude.{◌≡◌, ◌++◌, OnOk, replicate, ◌/◌, ◌%◌, take, ◌<◌};
ghost use Rattle.tomex_rvdec.specs.Meaning.{with_operands};
ghost use Rattle.tomex_elf.specs.File.{word};
ghost use Rattle.tomex_asm_words.specs.Words.{instruction, nops, pad};
ghost use Rattle.tomex_asm_numbers.specs.Numbers.{wrapped};

use std::alloc::{AllocError, Allocator};
use tomex_asm_numbers::wrapped;
use tomex_asm_text::Section;
use tomex_rvdec::{Instr, Op, encode};

/// An instruction that does nothing.
const NOP: u32 = 0x13;

/// Appends the word of an instruction.
#[tactic(auto, using(crate::proofs::Spelt::spelt))]
pub(crate) fn push_instruction<A: Allocator>(
    bytes: &mut Vec<u8, A>,
    op: Op,
    rd: u8,
    rs1: u8,
    rs2: u8,
    immediate: u32,
) -> Result<(), AllocError>
    ensures { OnOk result (bytes.new.items
        ≡ bytes.old.items ++ instruction (with_operands op rd rs1 rs2 immediate)) }
{
    match Instr::new(op, rd, rs1, rs2, immediate) {
        None => Err(AllocError),
        Some(instruction) => {
            bytes.extend_from_slice(encode(&instruction).to_le_bytes().as_slice())?;
            Ok(())
        }
    }
}

/// Appends zeros.
pub(crate) fn push_zeros<A: Allocator>(
    bytes: &mut Vec<u8, A>,
    count: usize,
) -> Result<(), AllocError>
    ensures { OnOk result (bytes.new.items ≡ bytes.old.items ++ replicate count 0) }
{
    for _ in 0..count {
        bytes.push(0)?;
    }
    Ok(())
}

/// Appends instructions that do nothing.
fn push_nops<A: Allocator>(bytes: &mut Vec<u8, A>, count: usize) -> Result<(), AllocError>
    ensures { OnOk result (bytes.new.items ≡ bytes.old.items ++ nops count) }
{
    for _ in 0..count {
        bytes.extend_from_slice(NOP.to_le_bytes().as_slice())?;
    }
    Ok(())
}

/// Appends the padding of a section.
pub(crate) fn push_padding<A: Allocator>(
    bytes: &mut Vec<u8, A>,
    section: Section,
    count: usize,
) -> Result<(), AllocError>
    ensures { OnOk result (bytes.new.items ≡ bytes.old.items ++ pad section count) }
{
    match section {
        Section::Data => push_zeros(bytes, count),
        Section::Text => {
            push_zeros(bytes, count % 4)?;
            push_nops(bytes, count / 4)
        }
    }
}

/// Appends the low bytes of a number, four at most.
pub(crate) fn push_number<A: Allocator>(
    bytes: &mut Vec<u8, A>,
    size: u8,
    value: i64,
) -> Result<(), AllocError>
    ensures { OnOk result (bytes.new.items ≡ bytes.old.items ++ take size (word (wrapped value))) }
{
    let word = wrapped(value).to_le_bytes();
    let size = usize::from(size).min(4);
    bytes.extend_from_slice(&word[..size])?;
    Ok(())
}
