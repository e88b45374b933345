//! The instructions of RV32IM, by the forms of their operands.

ghost use Rattle.std.specs.Prelude.{◌≡◌};
ghost use Rattle.tomex_asm_tokens.specs.Reading.{Reads};
ghost use Rattle.tomex_asm_text.specs.Statement.{immediate_of, template_of, statement_of};
ghost use Rattle.tomex_asm_text.specs.Instructions.{made, register_form, immediate_form, shift_form, branch_form};
ghost use Rattle.tomex_asm_text.specs.Instructions.{upper_at, upper_form, load_of, load_form, jalr_base, jalr_after};
ghost use Rattle.tomex_asm_text.specs.Instructions.{jalr_form, store_to, store_form, jump_form, set_of, set_at};
ghost use Rattle.tomex_asm_text.specs.Instructions.{fence_form, of_form, place_of, is_lui, is_jalr};

use crate::operands::{
    Place, begins_register, comma_at, immediate_at, memory_at, next_register, next_value, part_at,
    place_at, three_registers, two_registers,
};
use crate::reading::{begins_mark, lack, register_at, text_of};
use crate::statement::{Immediate, Statement, Template};
use crate::value::value_at;
use tomex_asm_tokens::{Fault, Mark, Thing, Token, named};
use tomex_rvdec::{Form, Op};

/// A statement, and what follows it.
pub(crate) type Read<'a> = Result<(Statement<'a>, &'a [Token]), Fault>;

/// The sets of input, output, reads and writes that a fence orders, with their bits.
const FENCE_SETS: [(&str, u8); 15] = [
    ("i", 8),
    ("o", 4),
    ("r", 2),
    ("w", 1),
    ("io", 12),
    ("ir", 10),
    ("iw", 9),
    ("or", 6),
    ("ow", 5),
    ("rw", 3),
    ("ior", 14),
    ("iow", 13),
    ("irw", 11),
    ("orw", 7),
    ("iorw", 15),
];

/// An instruction of these parts.
pub(crate) fn made<'a>(op: Op, rd: u8, rs1: u8, rs2: u8, immediate: Immediate<'a>) -> Template<'a>
    ensures { template_of result ≡ made op rd rs1 rs2 (immediate_of immediate.entry) }
{
    Template {
        op,
        rd,
        rs1,
        rs2,
        immediate,
    }
}

#[tactic(auto, unfolding(crate::specs::Instructions::register_form))]
fn register_form<'a>(op: Op, line: &[u8], rest: &'a [Token]) -> Read<'a>
    ensures { Reads (λ x. (statement_of x.0, x.1.now)) result (register_form op line.now rest.now) }
{
    let ((rd, rs1, rs2), rest) = three_registers(line, rest)?;
    Ok((
        Statement::One(made(op, rd, rs1, rs2, Immediate::Fixed(0))),
        rest,
    ))
}

#[tactic(auto, unfolding(crate::specs::Instructions::immediate_form))]
fn immediate_form<'a>(op: Op, line: &[u8], rest: &'a [Token]) -> Read<'a>
    ensures { Reads (λ x. (statement_of x.0, x.1.now)) result (immediate_form op line.now rest.now) }
{
    let ((rd, rs1), rest) = two_registers(line, rest)?;
    let rest = comma_at(line, rest)?;
    let (immediate, rest) = immediate_at(line, rest)?;
    Ok((Statement::One(made(op, rd, rs1, 0, immediate)), rest))
}

#[tactic(auto, unfolding(crate::specs::Instructions::shift_form))]
fn shift_form<'a>(op: Op, line: &[u8], rest: &'a [Token]) -> Read<'a>
    ensures { Reads (λ x. (statement_of x.0, x.1.now)) result (shift_form op line.now rest.now) }
{
    let ((rd, rs1), rest) = two_registers(line, rest)?;
    let (value, rest) = next_value(line, rest)?;
    Ok((
        Statement::One(made(op, rd, rs1, 0, Immediate::Plain(value))),
        rest,
    ))
}

#[tactic(auto, unfolding(crate::specs::Instructions::branch_form))]
fn branch_form<'a>(op: Op, line: &[u8], rest: &'a [Token]) -> Read<'a>
    ensures { Reads (λ x. (statement_of x.0, x.1.now)) result (branch_form op line.now rest.now) }
{
    let ((rs1, rs2), rest) = two_registers(line, rest)?;
    let (target, rest) = next_value(line, rest)?;
    Ok((
        Statement::One(made(op, 0, rs1, rs2, Immediate::Target(target))),
        rest,
    ))
}

fn is_lui(op: Op) -> bool
    ensures { result ≡ is_lui op }
{
    matches!(op, Op::Lui)
}

/// A value, or for LUI also the upper 20 bits of one.
#[tactic(auto, unfolding(crate::specs::Instructions::upper_at))]
fn upper_at<'a>(
    op: Op,
    line: &[u8],
    rest: &'a [Token],
) -> Result<(Immediate<'a>, &'a [Token]), Fault>
    ensures { Reads (λ x. (immediate_of x.0, x.1.now)) result (upper_at op line.now rest.now) }
{
    if is_lui(op) && begins_mark(rest, Mark::Percent) {
        let (value, rest) = part_at(b"hi", line, rest)?;
        Ok((Immediate::High(value), rest))
    } else {
        let (value, rest) = value_at(line, rest)?;
        Ok((Immediate::Plain(value), rest))
    }
}

#[tactic(auto, unfolding(crate::specs::Instructions::upper_form))]
fn upper_form<'a>(op: Op, line: &[u8], rest: &'a [Token]) -> Read<'a>
    ensures { Reads (λ x. (statement_of x.0, x.1.now)) result (upper_form op line.now rest.now) }
{
    let (rd, rest) = register_at(line, rest)?;
    let rest = comma_at(line, rest)?;
    let (immediate, rest) = upper_at(op, line, rest)?;
    Ok((Statement::One(made(op, rd, 0, 0, immediate)), rest))
}

/// A load from a place. A load from an address first leaves the upper bits of the address in its register.
fn load_of<'a>(op: Op, rd: u8, place: Place<'a>) -> Statement<'a>
    ensures { statement_of result ≡ load_of op rd (place_of place.entry) }
{
    match place {
        Place::Memory(offset, base) => Statement::One(made(op, rd, base, 0, offset)),
        Place::Address(address) => Statement::Two(
            made(Op::Auipc, rd, 0, 0, Immediate::PcHigh(address)),
            made(op, rd, rd, 0, Immediate::PcLow(address)),
        ),
    }
}

#[tactic(auto, unfolding(crate::specs::Instructions::load_form))]
fn load_form<'a>(op: Op, line: &[u8], rest: &'a [Token]) -> Read<'a>
    ensures { Reads (λ x. (statement_of x.0, x.1.now)) result (load_form op line.now rest.now) }
{
    let (rd, rest) = register_at(line, rest)?;
    let rest = comma_at(line, rest)?;
    let (place, rest) = place_at(line, rest)?;
    Ok((load_of(op, rd, place), rest))
}

/// A base register and an offset, or a memory operand.
#[tactic(auto, unfolding(crate::specs::Instructions::jalr_base))]
fn jalr_base<'a>(
    line: &[u8],
    rest: &'a [Token],
) -> Result<((Immediate<'a>, u8), &'a [Token]), Fault>
    ensures { Reads (λ x. ((immediate_of x.0.0, x.0.1), x.1.now)) result (jalr_base line.now rest.now) }
{
    if begins_register(line, rest) {
        let (base, rest) = register_at(line, rest)?;
        let rest = comma_at(line, rest)?;
        let (offset, rest) = immediate_at(line, rest)?;
        Ok(((offset, base), rest))
    } else {
        memory_at(line, rest)
    }
}

/// What follows the first register of a JALR: nothing if it is the base.
#[tactic(auto, unfolding(crate::specs::Instructions::jalr_after))]
fn jalr_after<'a>(op: Op, register: u8, line: &[u8], rest: &'a [Token]) -> Read<'a>
    ensures { Reads (λ x. (statement_of x.0, x.1.now)) result (jalr_after op register line.now rest.now) }
{
    if rest.is_empty() {
        return Ok((
            Statement::One(made(op, 1, register, 0, Immediate::Fixed(0))),
            rest,
        ));
    }
    let rest = comma_at(line, rest)?;
    let ((offset, base), rest) = jalr_base(line, rest)?;
    Ok((Statement::One(made(op, register, base, 0, offset)), rest))
}

#[tactic(auto, unfolding(crate::specs::Instructions::jalr_form))]
fn jalr_form<'a>(op: Op, line: &[u8], rest: &'a [Token]) -> Read<'a>
    ensures { Reads (λ x. (statement_of x.0, x.1.now)) result (jalr_form op line.now rest.now) }
{
    let (register, rest) = register_at(line, rest)?;
    jalr_after(op, register, line, rest)
}

/// A store to a place. If the place is an address, a register has to follow it.
fn store_to<'a>(op: Op, stored: u8, line: &[u8], rest: &'a [Token], place: Place<'a>) -> Read<'a>
    ensures { Reads (λ x. (statement_of x.0, x.1.now)) result
        (store_to op stored line.now rest.now (place_of place.entry)) }
{
    match place {
        Place::Memory(offset, base) => Ok((
            Statement::One(made(op, 0, base, stored, offset)),
            rest,
        )),
        Place::Address(address) => {
            if rest.is_empty() {
                return Err(lack(line, rest, Thing::Open));
            }
            let (base, rest) = next_register(line, rest)?;
            let upper = made(Op::Auipc, base, 0, 0, Immediate::PcHigh(address));
            let store = made(op, 0, base, stored, Immediate::PcLow(address));
            Ok((Statement::Two(upper, store), rest))
        }
    }
}

#[tactic(auto, unfolding(crate::specs::Instructions::store_form))]
fn store_form<'a>(op: Op, line: &[u8], rest: &'a [Token]) -> Read<'a>
    ensures { Reads (λ x. (statement_of x.0, x.1.now)) result (store_form op line.now rest.now) }
{
    let (stored, rest) = register_at(line, rest)?;
    let rest = comma_at(line, rest)?;
    let (place, rest) = place_at(line, rest)?;
    store_to(op, stored, line, rest, place)
}

#[tactic(auto, unfolding(crate::specs::Instructions::jump_form))]
fn jump_form<'a>(op: Op, line: &[u8], rest: &'a [Token]) -> Read<'a>
    ensures { Reads (λ x. (statement_of x.0, x.1.now)) result (jump_form op line.now rest.now) }
{
    if begins_register(line, rest) {
        let (rd, rest) = register_at(line, rest)?;
        let (target, rest) = next_value(line, rest)?;
        Ok((
            Statement::One(made(op, rd, 0, 0, Immediate::Target(target))),
            rest,
        ))
    } else {
        let (target, rest) = value_at(line, rest)?;
        Ok((
            Statement::One(made(op, 1, 0, 0, Immediate::Target(target))),
            rest,
        ))
    }
}

fn set_of(line: &[u8], token: Token) -> Option<u8>
    ensures { result ≡ set_of line.now token }
{
    if token.is_word() {
        named(&FENCE_SETS, text_of(line, token))
    } else {
        None
    }
}

#[tactic(auto, unfolding(crate::specs::Instructions::set_at))]
fn set_at<'a>(line: &[u8], rest: &'a [Token]) -> Result<(u8, &'a [Token]), Fault>
    ensures { Reads (λ x. (x.0, x.1.now)) result (set_at line.now rest.now) }
{
    match rest {
        [] => Err(lack(line, rest, Thing::FenceSet)),
        [token, after @ ..] => match set_of(line, *token) {
            Some(set) => Ok((set, after)),
            None => Err(lack(line, rest, Thing::FenceSet)),
        },
    }
}

#[tactic(auto, unfolding(crate::specs::Instructions::fence_form))]
fn fence_form<'a>(op: Op, line: &[u8], rest: &'a [Token]) -> Read<'a>
    ensures { Reads (λ x. (statement_of x.0, x.1.now)) result (fence_form op line.now rest.now) }
{
    if rest.is_empty() {
        return Ok((
            Statement::One(made(op, 0, 0, 0, Immediate::Fixed(255))),
            rest,
        ));
    }
    let (before, rest) = set_at(line, rest)?;
    let rest = comma_at(line, rest)?;
    let (after, rest) = set_at(line, rest)?;
    let sets = i32::from(before) * 16 + i32::from(after);
    Ok((
        Statement::One(made(op, 0, 0, 0, Immediate::Fixed(sets))),
        rest,
    ))
}

fn is_jalr(op: Op) -> bool
    ensures { result ≡ is_jalr op }
{
    matches!(op, Op::Jalr)
}

/// The operands of an operation, by their form.
pub(crate) fn of_form<'a>(form: Form, op: Op, line: &[u8], rest: &'a [Token]) -> Read<'a>
    ensures { Reads (λ x. (statement_of x.0, x.1.now)) result (of_form form op line.now rest.now) }
{
    match form {
        Form::Register => register_form(op, line, rest),
        Form::Immediate => immediate_form(op, line, rest),
        Form::Offset => if is_jalr(op) {
            jalr_form(op, line, rest)
        } else {
            load_form(op, line, rest)
        },
        Form::Shift => shift_form(op, line, rest),
        Form::Store => store_form(op, line, rest),
        Form::Branch => branch_form(op, line, rest),
        Form::Upper => upper_form(op, line, rest),
        Form::Jump => jump_form(op, line, rest),
        Form::Fence => fence_form(op, line, rest),
        Form::Whole => Ok((Statement::One(made(op, 0, 0, 0, Immediate::Fixed(0))), rest)),
    }
}
