//! From words to instructions.

ghost use Rattle.std.specs.Prelude.{◌≡◌, IfSome, IfNone, IsTrue};
ghost use Rattle.tomex_rvdec.specs.Fields.{opcode};
ghost use Rattle.tomex_rvdec.specs.Meaning.{Means, selects, meaning, operands_at, with_operands};
ghost use Rattle.tomex_rvdec.specs.Instruction.{Instruction};
ghost use Rattle.tomex_rvdec.specs.declared.op.Op.{Op};

use crate::fields::{
    funct3_of, funct7_of, imm_b_of, imm_i_of, imm_j_of, imm_s_of, imm_u_of, opcode_of, rd_of,
    rs1_of, rs2_of,
};
use crate::instr::Instr;
use crate::op::{Form, Op};

/// The operation of a word of the BRANCH opcode, if any.
fn branch_of(word: u32) -> Option<Op>
    requires { opcode word ≡ 0b1100011 }
    ensures some { IfSome result (λ op. IsTrue (selects op word)) }
    ensures none { IfNone result ((op : Op) → IsTrue (selects op word) → ⊥) }
{
    match funct3_of(word) {
        0b000 => Some(Op::Beq),
        0b001 => Some(Op::Bne),
        0b100 => Some(Op::Blt),
        0b101 => Some(Op::Bge),
        0b110 => Some(Op::Bltu),
        0b111 => Some(Op::Bgeu),
        _ => None,
    }
}

/// The operation of a word of the LOAD opcode, if any.
fn load_of(word: u32) -> Option<Op>
    requires { opcode word ≡ 0b0000011 }
    ensures some { IfSome result (λ op. IsTrue (selects op word)) }
    ensures none { IfNone result ((op : Op) → IsTrue (selects op word) → ⊥) }
{
    match funct3_of(word) {
        0b000 => Some(Op::Lb),
        0b001 => Some(Op::Lh),
        0b010 => Some(Op::Lw),
        0b100 => Some(Op::Lbu),
        0b101 => Some(Op::Lhu),
        _ => None,
    }
}

/// The operation of a word of the STORE opcode, if any.
fn store_of(word: u32) -> Option<Op>
    requires { opcode word ≡ 0b0100011 }
    ensures some { IfSome result (λ op. IsTrue (selects op word)) }
    ensures none { IfNone result ((op : Op) → IsTrue (selects op word) → ⊥) }
{
    match funct3_of(word) {
        0b000 => Some(Op::Sb),
        0b001 => Some(Op::Sh),
        0b010 => Some(Op::Sw),
        _ => None,
    }
}

/// The operation of a word of the OP-IMM opcode, if any.
fn immediate_of(word: u32) -> Option<Op>
    requires { opcode word ≡ 0b0010011 }
    ensures some { IfSome result (λ op. IsTrue (selects op word)) }
    ensures none { IfNone result ((op : Op) → IsTrue (selects op word) → ⊥) }
{
    match (funct3_of(word), funct7_of(word)) {
        (0b000, _) => Some(Op::Addi),
        (0b010, _) => Some(Op::Slti),
        (0b011, _) => Some(Op::Sltiu),
        (0b100, _) => Some(Op::Xori),
        (0b110, _) => Some(Op::Ori),
        (0b111, _) => Some(Op::Andi),
        (0b001, 0b0000000) => Some(Op::Slli),
        (0b101, 0b0000000) => Some(Op::Srli),
        (0b101, 0b0100000) => Some(Op::Srai),
        _ => None,
    }
}

/// The operation of a word of the OP opcode, if any.
fn register_of(word: u32) -> Option<Op>
    requires { opcode word ≡ 0b0110011 }
    ensures some { IfSome result (λ op. IsTrue (selects op word)) }
    ensures none { IfNone result ((op : Op) → IsTrue (selects op word) → ⊥) }
{
    match (funct7_of(word), funct3_of(word)) {
        (0b0000000, 0b000) => Some(Op::Add),
        (0b0000000, 0b001) => Some(Op::Sll),
        (0b0000000, 0b010) => Some(Op::Slt),
        (0b0000000, 0b011) => Some(Op::Sltu),
        (0b0000000, 0b100) => Some(Op::Xor),
        (0b0000000, 0b101) => Some(Op::Srl),
        (0b0000000, 0b110) => Some(Op::Or),
        (0b0000000, 0b111) => Some(Op::And),
        (0b0100000, 0b000) => Some(Op::Sub),
        (0b0100000, 0b101) => Some(Op::Sra),
        (0b0000001, 0b000) => Some(Op::Mul),
        (0b0000001, 0b001) => Some(Op::Mulh),
        (0b0000001, 0b010) => Some(Op::Mulhsu),
        (0b0000001, 0b011) => Some(Op::Mulhu),
        (0b0000001, 0b100) => Some(Op::Div),
        (0b0000001, 0b101) => Some(Op::Divu),
        (0b0000001, 0b110) => Some(Op::Rem),
        (0b0000001, 0b111) => Some(Op::Remu),
        _ => None,
    }
}

/// The operation that the word's fixed bits select, if any.
fn op_of(word: u32) -> Option<Op>
    ensures some { IfSome result (λ op. IsTrue (selects op word)) }
    ensures none { IfNone result ((op : Op) → IsTrue (selects op word) → ⊥) }
{
    match opcode_of(word) {
        0b0010011 => immediate_of(word),
        0b0110011 => register_of(word),
        0b0000011 => load_of(word),
        0b0100011 => store_of(word),
        0b1100011 => branch_of(word),
        0b0110111 => Some(Op::Lui),
        0b0010111 => Some(Op::Auipc),
        0b1101111 => Some(Op::Jal),
        0b1100111 if funct3_of(word) == 0b000 => Some(Op::Jalr),
        0b0001111 if funct3_of(word) == 0b000 => Some(Op::Fence),
        0b1110011 if word == 0x0000_0073 => Some(Op::Ecall),
        0b1110011 if word == 0x0010_0073 => Some(Op::Ebreak),
        _ => None,
    }
}

/// The operands of an operation of this form in a word: rd, rs1, rs2 and the immediate. One that the form doesn't have
/// is 0.
fn operands_of(form: Form, word: u32) -> (u8, u8, u8, u32)
    ensures { (op : Op) → with_operands op result.0 result.1 result.2 result.3 ≡ operands_at form word op }
{
    let (rd, rs1, rs2) = (rd_of(word), rs1_of(word), rs2_of(word));
    match form {
        Form::Register => (rd, rs1, rs2, 0),
        Form::Immediate | Form::Offset => (rd, rs1, 0, imm_i_of(word)),
        Form::Shift => (rd, rs1, 0, u32::from(rs2)),
        Form::Store => (0, rs1, rs2, imm_s_of(word)),
        Form::Branch => (0, rs1, rs2, imm_b_of(word)),
        Form::Upper => (rd, 0, 0, imm_u_of(word)),
        Form::Jump => (rd, 0, 0, imm_j_of(word)),
        Form::Fence => (rd, rs1, 0, word >> 20),
        Form::Whole => (0, 0, 0, 0),
    }
}

/// The instruction that the word means, if any, by the table's rows.
#[tactic(auto, unfolding(crate::specs::Meaning::IsMeant))]
fn from_table(word: u32) -> Option<Instr>
    ensures some { IfSome result (λ x. Means word x) }
    ensures none { IfNone result ((x : Instruction) → Means word x → ⊥) }
{
    let op = op_of(word)?;
    let (rd, rs1, rs2, imm) = operands_of(op.form(), word);
    Some(Instr {
        op,
        rd,
        rs1,
        rs2,
        imm,
    })
}

/// The instruction that the word means; `None` if it is not an instruction of RV32IM.
///
/// Words of extensions C, A, F, D, Zicsr and Zifencei and of the privileged modes mean nothing.
#[tactic(auto, using(crate::proofs::Meaning::means_meaning, crate::proofs::Meaning::meaning_none))]
pub fn decode(word: u32) -> Option<Instr>
    ensures exact { result ≡ meaning word }
    ensures some { IfSome result (λ x. Means word x) }
    ensures none { IfNone result ((x : Instruction) → Means word x → ⊥) }
{
    from_table(word)
}
