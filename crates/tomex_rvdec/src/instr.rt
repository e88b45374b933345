//! An instruction, and the parts of a machine that it uses: a station, a unit, operands.

ghost use Rattle.std.specs.Prelude.{◌≡◌, ◌<◌};

use crate::op::{Form, Op};
use crate::pool::{PoolId, UnitId};
use crate::pool_table::pool_of;
use std::marker::Model;

/// An instruction that some word of 32 bits means.
///
/// Registers are numbers from 0 to 31. The immediate is kept modulo 2^32, its sign extended; it
/// also holds a shift's amount and FENCE's 12 bits. Fields that the operation doesn't use are zero.
#[derive(Clone, Copy, PartialEq, Eq)]
pub struct Instr {
    pub(crate) op: Op,
    pub(crate) rd: u8,
    pub(crate) rs1: u8,
    pub(crate) rs2: u8,
    pub(crate) imm: u32,
}

impl Model for Instr {
    ghost use Rattle.tomex_rvdec.specs.Instruction.{Instruction};
    ghost use Rattle.tomex_rvdec.specs.Meaning.{IsMeant};

    ghost Value = { Instruction };

    ghost view = { λ i. record { op = i.op; rd = i.rd; rs1 = i.rs1; rs2 = i.rs2; imm = i.imm } };

    ghost invariant = { λ i. IsMeant (record { op = i.op; rd = i.rd; rs1 = i.rs1; rs2 = i.rs2; imm = i.imm }) };

    ghost inverse = { λ x. record { op = x.op; rd = x.rd; rs1 = x.rs1; rs2 = x.rs2; imm = x.imm } };
}

/// The registers that an instruction reads. `j` is rs1 and `k` is rs2, as the reservation
/// stations' fields Qj and Qk name them; x0 is read like any other.
#[derive(Clone, Copy, PartialEq, Eq)]
pub struct Sources {
    pub j: Option<u8>,
    pub k: Option<u8>,
}

impl Instr {
    ghost use Rattle.std.specs.Prelude.{◌≡◌, ◌<◌, IfSome};
    ghost use Rattle.tomex_rvdec.specs.Meaning.{IsMeant};
    ghost use Rattle.tomex_rvdec.specs.Operands.{pool_of, unit_of, sources_of, dest_of};

    /// The operation.
    pub fn op(&self) -> Op
        ensures value { result ≡ self.now.op }
        ensures meant { IsMeant self.now }
    {
        self.op
    }

    /// The rd field: the register that is written, if the operation writes one.
    #[tactic(auto, unfolding(crate::specs::Meaning::IsMeant))]
    pub fn rd(&self) -> u8
        ensures value { result ≡ self.now.rd }
        ensures register { result < 32 }
    {
        self.rd
    }

    /// The rs1 field: the first source register, or the base of an access.
    #[tactic(auto, unfolding(crate::specs::Meaning::IsMeant))]
    pub fn rs1(&self) -> u8
        ensures value { result ≡ self.now.rs1 }
        ensures register { result < 32 }
    {
        self.rs1
    }

    /// The rs2 field: the second source register, or the register that is stored.
    #[tactic(auto, unfolding(crate::specs::Meaning::IsMeant))]
    pub fn rs2(&self) -> u8
        ensures value { result ≡ self.now.rs2 }
        ensures register { result < 32 }
    {
        self.rs2
    }

    /// The immediate, modulo 2^32.
    pub fn imm(&self) -> u32
        ensures { result ≡ self.now.imm }
    {
        self.imm
    }

    /// The pool whose station the instruction waits in; FENCE, ECALL and EBREAK use none.
    pub fn pool(&self) -> Option<PoolId>
        ensures { result ≡ pool_of self.now.op }
    {
        pool_of(self.op)
    }

    /// The kind of unit that runs the instruction; FENCE, ECALL and EBREAK use none.
    pub fn unit(&self) -> Option<UnitId>
        ensures { result ≡ unit_of self.now.op }
    {
        match self.pool()? {
            PoolId::Alu => Some(UnitId::Alu),
            PoolId::Mul => Some(UnitId::Mul),
            PoolId::Div => Some(UnitId::Div),
            PoolId::Load | PoolId::Store => Some(UnitId::Mem),
            PoolId::Bru => Some(UnitId::Bru),
        }
    }

    /// The registers that are read.
    #[tactic(auto, unfolding(crate::specs::Meaning::IsMeant))]
    pub fn sources(&self) -> Sources
        ensures value { result ≡ sources_of self.now }
        ensures j { IfSome result.j (λ r. r < 32) }
        ensures k { IfSome result.k (λ r. r < 32) }
    {
        match self.op.form() {
            Form::Register | Form::Store | Form::Branch => Sources {
                j: Some(self.rs1),
                k: Some(self.rs2),
            },
            Form::Immediate | Form::Offset | Form::Shift => Sources {
                j: Some(self.rs1),
                k: None,
            },
            Form::Upper | Form::Jump | Form::Fence | Form::Whole => Sources { j: None, k: None },
        }
    }

    /// The register that is written; x0 is none.
    #[tactic(auto, unfolding(crate::specs::Meaning::IsMeant))]
    pub fn dest(&self) -> Option<u8>
        ensures value { result ≡ dest_of self.now }
        ensures register { IfSome result (λ r. r < 32) }
    {
        match self.op.form() {
            Form::Store | Form::Branch | Form::Fence | Form::Whole => None,
            _ => if self.rd == 0 { None } else { Some(self.rd) },
        }
    }
}
