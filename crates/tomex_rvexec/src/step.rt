//! One step of a run, and what follows from it.

ghost use Rattle.std.specs.Prelude.{◌≡◌, ◌≤◌, Some};
ghost use Rattle.tomex_rvexec.specs.Steps.{access_size, bytes_at, shares_byte};

use tomex_rvdec::{Instr, Op, PoolId, UnitId};

/// A source register that an instruction reads, with its value at that step.
#[derive(Clone, Copy, PartialEq, Eq)]
pub struct Operand {
    pub register: u8,
    pub value: u32,
}

/// The bytes of an access: addresses from `from` to `to`, exclusive. They don't wrap.
#[derive(Clone, Copy, PartialEq, Eq)]
pub struct ByteRange {
    pub from: u64,
    pub to: u64,
}

/// The number of bytes that an operation reads or writes; 0 if it touches no memory.
fn access_size(op: Op) -> u64
    ensures value { result ≡ access_size op }
    ensures word { result ≤ 4 }
{
    match op {
        Op::Lb | Op::Lbu | Op::Sb => 1,
        Op::Lh | Op::Lhu | Op::Sh => 2,
        Op::Lw | Op::Sw => 4,
        _ => 0,
    }
}

impl ByteRange {
    /// The bytes that a load or store touches at its address; `None` for every other operation.
    pub fn at(op: Op, address: u32) -> Option<ByteRange>
        ensures { result ≡ bytes_at op address }
    {
        let size = access_size(op);
        if size == 0 {
            return None;
        }
        let from = u64::from(address);
        Some(ByteRange {
            from,
            to: from + size,
        })
    }

    /// True if it shares a byte with another range. Neither is empty.
    #[inline(always)]
    pub fn shares_byte(self, other: ByteRange) -> bool
        ensures { result ≡ shares_byte (Some self) (Some other) }
    {
        self.from < other.to && other.from < self.to
    }
}

/// One step: an instruction at an address, and the values of its source registers.
///
/// Everything else that a timing model needs of a step follows from these, so no list of steps can
/// contradict itself about an instruction.
#[derive(Clone, Copy, PartialEq, Eq)]
pub struct Step {
    // First, so that the machine's hot loop reads its fields as the words that it wrote.
    pub instr: Instr,
    /// The address of the instruction.
    pub pc: u32,
    /// The value of the register that the rs1 field names. Zero if the operation has no such field;
    /// FENCE has one, which it keeps and doesn't read.
    pub vj: u32,
    /// The value of the register that the rs2 field names, zero if there is no such field.
    pub vk: u32,
}

impl Step {
    ghost use Rattle.std.specs.Prelude.{◌≡◌, ◌<◌, ◌≢◌, IfSome};
    ghost use Rattle.tomex_rvexec.specs.Steps.{step_pool, step_unit, step_dest, j_of};
    ghost use Rattle.tomex_rvexec.specs.Steps.{k_of, bytes_of, is_branch, is_store};

    /// The pool whose station the step takes, if any.
    pub fn pool(&self) -> Option<PoolId>
        ensures { result ≡ step_pool self.now }
    {
        self.instr.pool()
    }

    /// The kind of unit that runs the step, if any.
    pub fn unit(&self) -> Option<UnitId>
        ensures { result ≡ step_unit self.now }
    {
        self.instr.unit()
    }

    /// The register that the step writes, if any; never x0.
    pub fn dest(&self) -> Option<u8>
        ensures value { result ≡ step_dest self.now }
        ensures register { IfSome result (λ r. r < 32) }
        ensures nonzero { IfSome result (λ r. r ≢ 0) }
    {
        self.instr.dest()
    }

    /// The operand rs1, if the instruction reads it.
    pub fn j(&self) -> Option<Operand>
        ensures value { result ≡ j_of self.now }
        ensures register { IfSome result (λ o. o.register < 32) }
    {
        match self.instr.sources().j {
            Some(register) => Some(Operand {
                register,
                value: self.vj,
            }),
            None => None,
        }
    }

    /// The operand rs2, if the instruction reads it.
    pub fn k(&self) -> Option<Operand>
        ensures value { result ≡ k_of self.now }
        ensures register { IfSome result (λ o. o.register < 32) }
    {
        match self.instr.sources().k {
            Some(register) => Some(Operand {
                register,
                value: self.vk,
            }),
            None => None,
        }
    }

    /// The bytes that a load or store touches; `None` for every other instruction.
    pub fn bytes(&self) -> Option<ByteRange>
        ensures { result ≡ bytes_of self.now }
    {
        let address = self.vj.wrapping_add(self.instr.imm());
        ByteRange::at(self.instr.op(), address)
    }

    /// True if the next instruction depends on it: a conditional branch or JALR.
    pub fn is_branch(&self) -> bool
        ensures { result ≡ is_branch self.now }
    {
        matches!(self.pool(), Some(PoolId::Bru))
    }

    /// True if the step writes memory.
    pub fn is_store(&self) -> bool
        ensures { result ≡ is_store self.now }
    {
        matches!(self.pool(), Some(PoolId::Store))
    }
}
