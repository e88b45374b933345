//! The operation of one step, once its operands are there: its result, its store, and the next pc.
//! For machines that carry values outside registers.

ghost use Rattle.std.specs.Prelude.{ℕ, ◌≡◌, IfSome, IsSome, IsTrue, Some, true};
ghost use Rattle.tomex_rvdec.specs.Meaning.{form_of};
ghost use Rattle.tomex_rvdec.specs.Operands.{pool_of};
ghost use Rattle.tomex_rvdec.specs.declared.pool.PoolId.TheVariants as pools;
ghost use Rattle.tomex_rvexec.specs.Access.{HasStored, IsInside, has_bytes};
ghost use Rattle.tomex_rvexec.specs.Results.{byte_in, load_value, next_pc_of, result_of, second_at};
ghost use Rattle.tomex_rvexec.specs.Steps.{access_size, is_in};

use crate::memory::Memory;
use crate::step::Step;
use crate::words::{alu, muldiv, taken};
use std::alloc::Allocator;
use tomex_rvdec::{Form, Op, PoolId};

/// The value of a load; `None` if one of its bytes lies outside memory.
#[tactic(auto, using(crate::proofs::Bytes::half_loaded, crate::proofs::Bytes::word_loaded))]
fn load_value<A: Allocator>(op: Op, address: u32, memory: &Memory<A>) -> Option<u32>
    requires { is_in pools.Load (pool_of op) ≡ true }
    ensures value { IfSome result (λ v. v ≡ load_value op (byte_in memory.now) address) }
    ensures inside { IsTrue (has_bytes memory.now address (access_size op)) → IsSome result }
    ensures outside { IfSome result (λ v. IsTrue (has_bytes memory.now address (access_size op))) }
{
    match op {
        Op::Lb => memory.load_byte(address),
        Op::Lh => memory.load_half(address),
        Op::Lbu => memory.load_byte_unsigned(address),
        Op::Lhu => memory.load_half_unsigned(address),
        _ => memory.load_word(address),
    }
}

/// The second operand of an operation: rs2's value, or the immediate.
#[inline(always)]
fn second(step: &Step) -> u32
    ensures { result ≡ second_at (form_of step.now.instr.op) step.now }
{
    match step.instr.op().form() {
        Form::Register => step.vk,
        _ => step.instr.imm(),
    }
}

/// The result of an arithmetic unit's operation on its operands, its immediate and its pc.
fn alu_result(step: &Step) -> u32
    requires { pool_of step.now.instr.op ≡ Some pools.Alu }
    ensures { (byte : ℕ → ℕ) → result ≡ result_of step.now byte }
{
    let op = step.instr.op();
    let imm = step.instr.imm();
    match op {
        Op::Lui => imm,
        Op::Auipc => step.pc.wrapping_add(imm),
        Op::Jal => step.pc.wrapping_add(4),
        _ => alu(op, step.vj, second(step)),
    }
}

/// The result of a step, for its destination; 0 if the step writes no register.
///
/// `None` only if a byte of its access lies outside memory.
pub fn result<A: Allocator>(step: &Step, memory: &Memory<A>) -> Option<u32>
    ensures value { IfSome result (λ v. v ≡ result_of step.now (byte_in memory.now)) }
    ensures inside { IsInside memory.now step.now → IsSome result }
    ensures outside { IfSome result (λ v. IsInside memory.now step.now) }
{
    match step.pool() {
        Some(pool) => result_in(pool, step, memory),
        None => Some(0),
    }
}

/// The result of a step whose operation runs in this pool, for callers that know which: it chooses
/// only among the operations of one pool.
#[inline(always)]
pub fn result_in<A: Allocator>(pool: PoolId, step: &Step, memory: &Memory<A>) -> Option<u32>
    requires { pool_of step.now.instr.op ≡ Some pool }
    ensures value { IfSome result (λ v. v ≡ result_of step.now (byte_in memory.now)) }
    ensures inside { IsInside memory.now step.now → IsSome result }
    ensures outside { IfSome result (λ v. IsInside memory.now step.now) }
{
    let op = step.instr.op();
    match pool {
        PoolId::Load => load_value(op, step.vj.wrapping_add(step.instr.imm()), memory),
        PoolId::Store => {
            let size = match op {
                Op::Sb => 1,
                Op::Sh => 2,
                _ => 4,
            };
            memory.place(step.vj.wrapping_add(step.instr.imm()), size)?;
            Some(0)
        }
        PoolId::Bru => match op {
            Op::Jalr => Some(step.pc.wrapping_add(4)),
            _ => Some(0),
        },
        PoolId::Alu => Some(alu_result(step)),
        PoolId::Mul | PoolId::Div => Some(muldiv(op, step.vj, step.vk)),
    }
}

/// Writes the bytes of a step's store. Any other step, and a store with a byte outside memory,
/// leaves memory unchanged.
pub fn store<A: Allocator>(step: &Step, memory: &mut Memory<A>)
    ensures stored { HasStored step.now memory.old memory.new }
    ensures outside { (IsInside memory.old step.now → ⊥) → memory.new ≡ memory.old }
{
    let address = step.vj.wrapping_add(step.instr.imm());
    match step.instr.op() {
        Op::Sb => {
            memory.store_byte(address, step.vk);
        }
        Op::Sh => {
            memory.store_half(address, step.vk);
        }
        Op::Sw => {
            memory.store_word(address, step.vk);
        }
        _ => {}
    }
}

/// The pc after a step. Others test that it is a multiple of 4 and in memory.
pub fn next_pc(step: &Step) -> u32
    ensures { result ≡ next_pc_of step.now }
{
    let imm = step.instr.imm();
    match step.instr.op() {
        Op::Jal => step.pc.wrapping_add(imm),
        Op::Jalr => step.vj.wrapping_add(imm) & !1,
        op => {
            if taken(op, step.vj, step.vk) {
                step.pc.wrapping_add(imm)
            } else {
                step.pc.wrapping_add(4)
            }
        }
    }
}
