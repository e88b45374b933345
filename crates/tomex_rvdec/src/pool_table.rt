//! The pool of each operation, from a table: a machine asks for it in each cycle in which it may issue.

ghost use Rattle.std.specs.Prelude.{◌≡◌};
ghost use Rattle.tomex_rvdec.specs.Operands.{pool_of};

use crate::op::Op;
use crate::pool::PoolId;

/// By operation, in the order of `Op`.
static POOLS: [Option<PoolId>; 48] = [
    Some(PoolId::Alu), // Lui
    Some(PoolId::Alu), // Auipc
    Some(PoolId::Alu), // Jal
    Some(PoolId::Bru), // Jalr
    Some(PoolId::Bru), // Beq
    Some(PoolId::Bru), // Bne
    Some(PoolId::Bru), // Blt
    Some(PoolId::Bru), // Bge
    Some(PoolId::Bru), // Bltu
    Some(PoolId::Bru), // Bgeu
    Some(PoolId::Load), // Lb
    Some(PoolId::Load), // Lh
    Some(PoolId::Load), // Lw
    Some(PoolId::Load), // Lbu
    Some(PoolId::Load), // Lhu
    Some(PoolId::Store), // Sb
    Some(PoolId::Store), // Sh
    Some(PoolId::Store), // Sw
    Some(PoolId::Alu), // Addi
    Some(PoolId::Alu), // Slti
    Some(PoolId::Alu), // Sltiu
    Some(PoolId::Alu), // Xori
    Some(PoolId::Alu), // Ori
    Some(PoolId::Alu), // Andi
    Some(PoolId::Alu), // Slli
    Some(PoolId::Alu), // Srli
    Some(PoolId::Alu), // Srai
    Some(PoolId::Alu), // Add
    Some(PoolId::Alu), // Sub
    Some(PoolId::Alu), // Sll
    Some(PoolId::Alu), // Slt
    Some(PoolId::Alu), // Sltu
    Some(PoolId::Alu), // Xor
    Some(PoolId::Alu), // Srl
    Some(PoolId::Alu), // Sra
    Some(PoolId::Alu), // Or
    Some(PoolId::Alu), // And
    Some(PoolId::Mul), // Mul
    Some(PoolId::Mul), // Mulh
    Some(PoolId::Mul), // Mulhsu
    Some(PoolId::Mul), // Mulhu
    Some(PoolId::Div), // Div
    Some(PoolId::Div), // Divu
    Some(PoolId::Div), // Rem
    Some(PoolId::Div), // Remu
    None, // Fence
    None, // Ecall
    None, // Ebreak
];

/// The pool whose station an operation waits in.
#[inline(always)]
pub(crate) fn pool_of(op: Op) -> Option<PoolId>
    ensures { result ≡ pool_of op }
{
    POOLS[op as usize]
}
