//! Instructions and pseudoinstructions, by their mnemonics.

ghost use Rattle.std.specs.Prelude.{◌≡◌};
ghost use Rattle.tomex_asm_tokens.specs.Reading.{Reads};
ghost use Rattle.tomex_asm_text.specs.Statement.{statement_of};
ghost use Rattle.tomex_asm_text.specs.Instructions.{of_number, of_zero, swapped, branch_of_zero, branch_swapped, jump};
ghost use Rattle.tomex_asm_text.specs.Instructions.{jump_register, load_address, after_plt, far, load_number};
ghost use Rattle.tomex_asm_text.specs.Instructions.{instruction_at};

use crate::forms::{Read, made, of_form};
use crate::mnemonic::Mnemonic;
use crate::operands::{next_value, second_is, three_registers, two_registers};
use crate::reading::{begins_mark, register_at};
use crate::statement::{Immediate, Statement};
use crate::value::value_at;
use tomex_asm_tokens::{Mark, Token};
use tomex_rvdec::Op;

#[tactic(auto, unfolding(crate::specs::Instructions::of_number))]
fn of_number<'a>(op: Op, number: i32, line: &[u8], rest: &'a [Token]) -> Read<'a>
    ensures { Reads (λ x. (statement_of x.0, x.1.now)) result (of_number op number line.now rest.now) }
{
    let ((rd, rs1), rest) = two_registers(line, rest)?;
    Ok((
        Statement::One(made(op, rd, rs1, 0, Immediate::Fixed(number))),
        rest,
    ))
}

#[tactic(auto, unfolding(crate::specs::Instructions::of_zero))]
fn of_zero<'a>(op: Op, zero_first: bool, line: &[u8], rest: &'a [Token]) -> Read<'a>
    ensures { Reads (λ x. (statement_of x.0, x.1.now)) result (of_zero op zero_first line.now rest.now) }
{
    let ((rd, source), rest) = two_registers(line, rest)?;
    let instruction = if zero_first {
        made(op, rd, 0, source, Immediate::Fixed(0))
    } else {
        made(op, rd, source, 0, Immediate::Fixed(0))
    };
    Ok((Statement::One(instruction), rest))
}

#[tactic(auto, unfolding(crate::specs::Instructions::swapped))]
fn swapped<'a>(op: Op, line: &[u8], rest: &'a [Token]) -> Read<'a>
    ensures { Reads (λ x. (statement_of x.0, x.1.now)) result (swapped op line.now rest.now) }
{
    let ((rd, first, second), rest) = three_registers(line, rest)?;
    Ok((
        Statement::One(made(op, rd, second, first, Immediate::Fixed(0))),
        rest,
    ))
}

#[tactic(auto, unfolding(crate::specs::Instructions::branch_of_zero))]
fn branch_of_zero<'a>(op: Op, zero_first: bool, line: &[u8], rest: &'a [Token]) -> Read<'a>
    ensures { Reads (λ x. (statement_of x.0, x.1.now)) result (branch_of_zero op zero_first line.now rest.now) }
{
    let (source, rest) = register_at(line, rest)?;
    let (target, rest) = next_value(line, rest)?;
    let branch = if zero_first {
        made(op, 0, 0, source, Immediate::Target(target))
    } else {
        made(op, 0, source, 0, Immediate::Target(target))
    };
    Ok((Statement::One(branch), rest))
}

#[tactic(auto, unfolding(crate::specs::Instructions::branch_swapped))]
fn branch_swapped<'a>(op: Op, line: &[u8], rest: &'a [Token]) -> Read<'a>
    ensures { Reads (λ x. (statement_of x.0, x.1.now)) result (branch_swapped op line.now rest.now) }
{
    let ((first, second), rest) = two_registers(line, rest)?;
    let (target, rest) = next_value(line, rest)?;
    Ok((
        Statement::One(made(op, 0, second, first, Immediate::Target(target))),
        rest,
    ))
}

#[tactic(auto, unfolding(crate::specs::Instructions::jump))]
fn jump<'a>(line: &[u8], rest: &'a [Token]) -> Read<'a>
    ensures { Reads (λ x. (statement_of x.0, x.1.now)) result (jump line.now rest.now) }
{
    let (target, rest) = value_at(line, rest)?;
    Ok((
        Statement::One(made(Op::Jal, 0, 0, 0, Immediate::Target(target))),
        rest,
    ))
}

#[tactic(auto, unfolding(crate::specs::Instructions::jump_register))]
fn jump_register<'a>(line: &[u8], rest: &'a [Token]) -> Read<'a>
    ensures { Reads (λ x. (statement_of x.0, x.1.now)) result (jump_register line.now rest.now) }
{
    let (base, rest) = register_at(line, rest)?;
    Ok((
        Statement::One(made(Op::Jalr, 0, base, 0, Immediate::Fixed(0))),
        rest,
    ))
}

#[tactic(auto, unfolding(crate::specs::Instructions::load_address))]
fn load_address<'a>(line: &[u8], rest: &'a [Token]) -> Read<'a>
    ensures { Reads (λ x. (statement_of x.0, x.1.now)) result (load_address line.now rest.now) }
{
    let (rd, rest) = register_at(line, rest)?;
    let (address, rest) = next_value(line, rest)?;
    let upper = made(Op::Auipc, rd, 0, 0, Immediate::PcHigh(address));
    let lower = made(Op::Addi, rd, rd, 0, Immediate::PcLow(address));
    Ok((Statement::Two(upper, lower), rest))
}

/// What follows an address: `@plt` says nothing.
fn after_plt<'a>(line: &[u8], rest: &'a [Token]) -> &'a [Token]
    ensures { result.now ≡ after_plt line.now rest.now }
{
    match rest {
        [_, _, after @ ..] if begins_mark(rest, Mark::At) && second_is(b"plt", line, rest) => after,
        _ => rest,
    }
}

#[tactic(auto, unfolding(crate::specs::Instructions::far))]
fn far<'a>(base: u8, link: u8, line: &[u8], rest: &'a [Token]) -> Read<'a>
    ensures { Reads (λ x. (statement_of x.0, x.1.now)) result (far base link line.now rest.now) }
{
    let (address, rest) = value_at(line, rest)?;
    let upper = made(Op::Auipc, base, 0, 0, Immediate::PcHigh(address));
    let jump = made(Op::Jalr, link, base, 0, Immediate::PcLow(address));
    Ok((Statement::Two(upper, jump), after_plt(line, rest)))
}

#[tactic(auto, unfolding(crate::specs::Instructions::load_number))]
fn load_number<'a>(line: &[u8], rest: &'a [Token]) -> Read<'a>
    ensures { Reads (λ x. (statement_of x.0, x.1.now)) result (load_number line.now rest.now) }
{
    let (rd, rest) = register_at(line, rest)?;
    let (value, rest) = next_value(line, rest)?;
    Ok((Statement::LoadNumber(rd, value), rest))
}

/// The operands of a mnemonic.
pub(crate) fn instruction_at<'a>(mnemonic: Mnemonic, line: &[u8], rest: &'a [Token]) -> Read<'a>
    ensures { Reads (λ x. (statement_of x.0, x.1.now)) result (instruction_at mnemonic line.now rest.now) }
{
    match mnemonic {
        Mnemonic::Real(op) => of_form(op.form(), op, line, rest),
        Mnemonic::OfNumber(op, number) => of_number(op, number, line, rest),
        Mnemonic::OfZero(op, zero_first) => of_zero(op, zero_first, line, rest),
        Mnemonic::Swapped(op) => swapped(op, line, rest),
        Mnemonic::BranchOfZero(op, zero_first) => branch_of_zero(op, zero_first, line, rest),
        Mnemonic::BranchSwapped(op) => branch_swapped(op, line, rest),
        Mnemonic::NoOperation => Ok((
            Statement::One(made(Op::Addi, 0, 0, 0, Immediate::Fixed(0))),
            rest,
        )),
        Mnemonic::Return => Ok((
            Statement::One(made(Op::Jalr, 0, 1, 0, Immediate::Fixed(0))),
            rest,
        )),
        Mnemonic::Jump => jump(line, rest),
        Mnemonic::JumpRegister => jump_register(line, rest),
        Mnemonic::LoadNumber => load_number(line, rest),
        Mnemonic::LoadAddress => load_address(line, rest),
        Mnemonic::Far(base, link) => far(base, link, line, rest),
    }
}
