//! Mnemonics, and what each stands for.

ghost use Rattle.std.specs.Prelude.{◌≡◌};
ghost use Rattle.tomex_asm_text.specs.Mnemonics.{operation_named, mnemonic_named};

use tomex_asm_tokens::named;
use tomex_rvdec::Op;

/// What a mnemonic stands for. A flag is set if x0 is the first operand, and not the second.
#[derive(Clone, Copy)]
pub enum Mnemonic {
    /// An instruction of RV32IM.
    Real(Op),
    /// `d,s`: an operation of s and a number.
    OfNumber(Op, i32),
    /// `d,s`: an operation of s and x0.
    OfZero(Op, bool),
    /// `d,s,t`: an operation of t and s.
    Swapped(Op),
    /// `s,l`: a branch by s and x0.
    BranchOfZero(Op, bool),
    /// `s,t,l`: a branch by t and s.
    BranchSwapped(Op),
    NoOperation,
    Return,
    /// `l`.
    Jump,
    /// `s`.
    JumpRegister,
    /// `d,v`.
    LoadNumber,
    /// `d,a`.
    LoadAddress,
    /// `a`: a jump by way of the first register, which leaves where it came from in the second.
    Far(u8, u8),
}

const OPERATIONS: [Op; 48] = [
    Op::Lui,
    Op::Auipc,
    Op::Jal,
    Op::Jalr,
    Op::Beq,
    Op::Bne,
    Op::Blt,
    Op::Bge,
    Op::Bltu,
    Op::Bgeu,
    Op::Lb,
    Op::Lh,
    Op::Lw,
    Op::Lbu,
    Op::Lhu,
    Op::Sb,
    Op::Sh,
    Op::Sw,
    Op::Addi,
    Op::Slti,
    Op::Sltiu,
    Op::Xori,
    Op::Ori,
    Op::Andi,
    Op::Slli,
    Op::Srli,
    Op::Srai,
    Op::Add,
    Op::Sub,
    Op::Sll,
    Op::Slt,
    Op::Sltu,
    Op::Xor,
    Op::Srl,
    Op::Sra,
    Op::Or,
    Op::And,
    Op::Mul,
    Op::Mulh,
    Op::Mulhsu,
    Op::Mulhu,
    Op::Div,
    Op::Divu,
    Op::Rem,
    Op::Remu,
    Op::Fence,
    Op::Ecall,
    Op::Ebreak,
];

const PSEUDOINSTRUCTIONS: [(&str, Mnemonic); 28] = [
    ("nop", Mnemonic::NoOperation),
    ("mv", Mnemonic::OfNumber(Op::Addi, 0)),
    ("not", Mnemonic::OfNumber(Op::Xori, -1)),
    ("neg", Mnemonic::OfZero(Op::Sub, true)),
    ("seqz", Mnemonic::OfNumber(Op::Sltiu, 1)),
    ("snez", Mnemonic::OfZero(Op::Sltu, true)),
    ("sltz", Mnemonic::OfZero(Op::Slt, false)),
    ("sgtz", Mnemonic::OfZero(Op::Slt, true)),
    ("sgt", Mnemonic::Swapped(Op::Slt)),
    ("sgtu", Mnemonic::Swapped(Op::Sltu)),
    ("beqz", Mnemonic::BranchOfZero(Op::Beq, false)),
    ("bnez", Mnemonic::BranchOfZero(Op::Bne, false)),
    ("blez", Mnemonic::BranchOfZero(Op::Bge, true)),
    ("bgez", Mnemonic::BranchOfZero(Op::Bge, false)),
    ("bltz", Mnemonic::BranchOfZero(Op::Blt, false)),
    ("bgtz", Mnemonic::BranchOfZero(Op::Blt, true)),
    ("bgt", Mnemonic::BranchSwapped(Op::Blt)),
    ("ble", Mnemonic::BranchSwapped(Op::Bge)),
    ("bgtu", Mnemonic::BranchSwapped(Op::Bltu)),
    ("bleu", Mnemonic::BranchSwapped(Op::Bgeu)),
    ("j", Mnemonic::Jump),
    ("jr", Mnemonic::JumpRegister),
    ("ret", Mnemonic::Return),
    ("li", Mnemonic::LoadNumber),
    ("la", Mnemonic::LoadAddress),
    ("lla", Mnemonic::LoadAddress),
    ("call", Mnemonic::Far(1, 1)),
    ("tail", Mnemonic::Far(6, 0)),
];

/// The operation with this name.
fn operation_named(word: &[u8]) -> Option<Op>
    ensures { result ≡ operation_named word.now }
{
    OPERATIONS
        .iter()
        .copied()
        .find(|op| op.name().as_bytes() == word)
}

/// The mnemonic with this name.
pub(crate) fn mnemonic_named(word: &[u8]) -> Option<Mnemonic>
    ensures { result ≡ mnemonic_named word.now }
{
    match operation_named(word) {
        Some(op) => Some(Mnemonic::Real(op)),
        None => named(&PSEUDOINSTRUCTIONS, word),
    }
}
