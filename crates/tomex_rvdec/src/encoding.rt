//! From instructions to words.

ghost use Rattle.std.specs.Prelude.{◌≡◌, ℕ, ◌<◌, ◌^◌, ◌+◌, ◌*◌, IfNone, IfSome, IsTrue, Some, false, true};
ghost use Rattle.tomex_rvdec.specs.Fields.{opcode, funct3, funct7};
ghost use Rattle.tomex_rvdec.specs.Fits.{Fits};
ghost use Rattle.tomex_rvdec.specs.Meaning.{IsMeant, Means, selects, form_of, has_fixed_funct3, has_fixed_funct7};
ghost use Rattle.tomex_rvdec.specs.Meaning.{with_operands};

use crate::decoding::decode;
use crate::instr::Instr;
use crate::op::{Form, Op};

fn opcode_for(op: Op) -> u32
    ensures value { (w : ℕ) → IsTrue (selects op w) → result ≡ opcode w }
    ensures range { result < 2 ^ 7 }
{
    match op {
        Op::Lui => 0b0110111,
        Op::Auipc => 0b0010111,
        Op::Jal => 0b1101111,
        Op::Jalr => 0b1100111,
        Op::Beq | Op::Bne | Op::Blt | Op::Bge | Op::Bltu | Op::Bgeu => 0b1100011,
        Op::Lb | Op::Lh | Op::Lw | Op::Lbu | Op::Lhu => 0b0000011,
        Op::Sb | Op::Sh | Op::Sw => 0b0100011,
        Op::Addi | Op::Slti | Op::Sltiu | Op::Xori | Op::Ori | Op::Andi => 0b0010011,
        Op::Slli | Op::Srli | Op::Srai => 0b0010011,
        Op::Add
        | Op::Sub
        | Op::Sll
        | Op::Slt
        | Op::Sltu
        | Op::Xor
        | Op::Srl
        | Op::Sra
        | Op::Or
        | Op::And => 0b0110011,
        Op::Mul | Op::Mulh | Op::Mulhsu | Op::Mulhu | Op::Div | Op::Divu | Op::Rem | Op::Remu =>
            0b0110011,
        Op::Fence => 0b0001111,
        Op::Ecall | Op::Ebreak => 0b1110011,
    }
}

/// The fixed funct3 of an operation whose form has one, else zero.
fn funct3_for(op: Op) -> u32
    ensures value { (w : ℕ) → IsTrue (selects op w) → has_fixed_funct3 (form_of op) ≡ true → result
        ≡ funct3 w }
    ensures range { result < 2 ^ 3 }
{
    match op {
        Op::Bne | Op::Lh | Op::Sh | Op::Slli | Op::Sll | Op::Mulh => 0b001,
        Op::Lw | Op::Sw | Op::Slti | Op::Slt | Op::Mulhsu => 0b010,
        Op::Sltiu | Op::Sltu | Op::Mulhu => 0b011,
        Op::Blt | Op::Lbu | Op::Xori | Op::Xor | Op::Div => 0b100,
        Op::Bge | Op::Lhu | Op::Srli | Op::Srai | Op::Srl | Op::Sra | Op::Divu => 0b101,
        Op::Bltu | Op::Ori | Op::Or | Op::Rem => 0b110,
        Op::Bgeu | Op::Andi | Op::And | Op::Remu => 0b111,
        _ => 0b000,
    }
}

/// The fixed funct7 of an operation whose form has one, else zero.
fn funct7_for(op: Op) -> u32
    ensures value { (w : ℕ) → IsTrue (selects op w) → has_fixed_funct7 (form_of op) ≡ true → result
        ≡ funct7 w }
    ensures range { result < 2 ^ 7 }
{
    match op {
        Op::Sub | Op::Sra | Op::Srai => 0b0100000,
        Op::Mul | Op::Mulh | Op::Mulhsu | Op::Mulhu | Op::Div | Op::Divu | Op::Rem | Op::Remu =>
            0b0000001,
        _ => 0b0000000,
    }
}

/// The word of these six fields.
fn six_fields(funct7: u32, rs2: u32, rs1: u32, funct3: u32, rd: u32, opcode: u32) -> u32
    requires high { (funct7 < 2 ^ 7) × (rs2 < 2 ^ 5) × (rs1 < 2 ^ 5) }
    requires low { (funct3 < 2 ^ 3) × (rd < 2 ^ 5) × (opcode < 2 ^ 7) }
    ensures { result
        ≡ funct7 * 2 ^ 25 + rs2 * 2 ^ 20 + rs1 * 2 ^ 15 + funct3 * 2 ^ 12 + rd * 2 ^ 7 + opcode }
{
    // From the low end up, one field at a time, so that each step is known to be a sum.
    let low = rd << 7 | opcode;
    let middle = funct3 << 12 | low;
    let high = rs1 << 15 | middle;
    let higher = rs2 << 20 | high;
    funct7 << 25 | higher
}

/// The word of an operation with these operands.
fn word_of(op: Op, rd: u32, rs1: u32, rs2: u32, imm: u32) -> u32
    requires registers { (rd < 32) × (rs1 < 32) × (rs2 < 32) }
    ensures { (w : ℕ) → Means w (record { op = op; rd = rd; rs1 = rs1; rs2 = rs2; imm = imm })
        → result ≡ w }
{
    let (opcode, funct3, funct7) = (opcode_for(op), funct3_for(op), funct7_for(op));
    match op.form() {
        Form::Register => six_fields(funct7, rs2, rs1, funct3, rd, opcode),
        Form::Shift => six_fields(funct7, imm & 0x1f, rs1, funct3, rd, opcode),
        Form::Immediate | Form::Offset | Form::Fence => {
            six_fields((imm >> 5) & 0x7f, imm & 0x1f, rs1, funct3, rd, opcode)
        }
        Form::Store => six_fields((imm >> 5) & 0x7f, rs2, rs1, funct3, imm & 0x1f, opcode),
        Form::Branch => six_fields(
            ((imm >> 12) & 0x1) << 6 | (imm >> 5) & 0x3f,
            rs2,
            rs1,
            funct3,
            ((imm >> 1) & 0xf) << 1 | (imm >> 11) & 0x1,
            opcode,
        ),
        Form::Upper => six_fields(
            imm >> 25,
            (imm >> 20) & 0x1f,
            (imm >> 15) & 0x1f,
            (imm >> 12) & 0x7,
            rd,
            opcode,
        ),
        Form::Jump => six_fields(
            ((imm >> 20) & 0x1) << 6 | (imm >> 5) & 0x3f,
            ((imm >> 1) & 0xf) << 1 | (imm >> 11) & 0x1,
            (imm >> 15) & 0x1f,
            (imm >> 12) & 0x7,
            rd,
            opcode,
        ),
        Form::Whole => if op == Op::Ecall {
            0x0000_0073
        } else {
            0x0010_0073
        },
    }
}

/// The word that means the instruction. Every other word means another one, or nothing.
#[tactic(auto, using(crate::proofs::Meaning::encoded))]
pub fn encode(instr: &Instr) -> u32
    ensures means { Means result instr.now }
    ensures only { (w : ℕ) → Means w instr.now → result ≡ w }
{
    let op = instr.op();
    word_of(
        op,
        u32::from(instr.rd()),
        u32::from(instr.rs1()),
        u32::from(instr.rs2()),
        instr.imm(),
    )
}

impl Instr {
    /// The instruction of these parts; `None` if no word means it. Registers are numbers, and the immediate is taken
    /// modulo 2^32, as of an `Instr`: a field that the operation doesn't use has to be 0.
    pub fn new(op: Op, rd: u8, rs1: u8, rs2: u8, imm: u32) -> Option<Instr>
        ensures some { IfSome result (λ i. i ≡ with_operands op rd rs1 rs2 imm) }
        ensures none { IfNone result (IsMeant (with_operands op rd rs1 rs2 imm) → ⊥) }
        ensures fits { Fits (form_of op) (with_operands op rd rs1 rs2 imm)
            → result ≡ Some (with_operands op rd rs1 rs2 imm) }
    {
        if rd >= 32 || rs1 >= 32 || rs2 >= 32 {
            return None;
        }
        let word = word_of(op, u32::from(rd), u32::from(rs1), u32::from(rs2), imm);
        let instr = decode(word)?;
        if instr.has_parts(op, rd, rs1, rs2, imm) {
            Some(instr)
        } else {
            None
        }
    }

    /// True if these are the instruction's parts.
    fn has_parts(&self, op: Op, rd: u8, rs1: u8, rs2: u8, imm: u32) -> bool
        ensures same { result ≡ true → self.now ≡ with_operands op rd rs1 rs2 imm }
        ensures other { result ≡ false → self.now ≡ with_operands op rd rs1 rs2 imm → ⊥ }
    {
        self.op == op && self.rd == rd && self.rs1 == rs1 && self.rs2 == rs2 && self.imm == imm
    }
}
