//! The operations of RV32IM, and the forms in which words hold their operands.

ghost use Rattle.std.specs.Prelude.{◌≡◌};
ghost use Rattle.tomex_rvdec.specs.Meaning.{form_of};
ghost use Rattle.tomex_rvdec.specs.Text.{name_of};

/// An operation of RV32IM, named as the manual's assembler names it.
#[derive(Clone, Copy, PartialEq, Eq)]
pub enum Op {
    Lui,
    Auipc,
    Jal,
    Jalr,
    Beq,
    Bne,
    Blt,
    Bge,
    Bltu,
    Bgeu,
    Lb,
    Lh,
    Lw,
    Lbu,
    Lhu,
    Sb,
    Sh,
    Sw,
    Addi,
    Slti,
    Sltiu,
    Xori,
    Ori,
    Andi,
    Slli,
    Srli,
    Srai,
    Add,
    Sub,
    Sll,
    Slt,
    Sltu,
    Xor,
    Srl,
    Sra,
    Or,
    And,
    Mul,
    Mulh,
    Mulhsu,
    Mulhu,
    Div,
    Divu,
    Rem,
    Remu,
    Fence,
    Ecall,
    Ebreak,
}

/// The forms in which words hold operands: the manual's instruction formats, with the I format
/// split by what its immediate means.
#[derive(Clone, Copy, PartialEq, Eq)]
pub enum Form {
    /// The R format: two source registers.
    Register,
    /// The I format: a source register and a number.
    Immediate,
    /// The I format of JALR and the loads: a base register and an offset in bytes.
    Offset,
    /// The I format of the shifts by a constant: the amount is in the rs2 field.
    Shift,
    /// The S format: a base register, an offset in bytes and a register to store.
    Store,
    /// The B format: two source registers and an offset from the branch.
    Branch,
    /// The U format: the upper 20 bits of a number.
    Upper,
    /// The J format: an offset from the jump.
    Jump,
    /// FENCE: its registers and 12 bits are kept, and mean nothing to a machine of one hart.
    Fence,
    /// ECALL and EBREAK: the whole word is fixed.
    Whole,
}

impl Op {
    /// The form in which a word holds the operation's operands.
    pub fn form(self) -> Form
        ensures { result ≡ form_of self }
    {
        match self {
            Op::Lui | Op::Auipc => Form::Upper,
            Op::Jal => Form::Jump,
            Op::Jalr | Op::Lb | Op::Lh | Op::Lw | Op::Lbu | Op::Lhu => Form::Offset,
            Op::Addi | Op::Slti | Op::Sltiu | Op::Xori | Op::Ori | Op::Andi => Form::Immediate,
            Op::Slli | Op::Srli | Op::Srai => Form::Shift,
            Op::Beq | Op::Bne | Op::Blt | Op::Bge | Op::Bltu | Op::Bgeu => Form::Branch,
            Op::Sb | Op::Sh | Op::Sw => Form::Store,
            Op::Add | Op::Sub | Op::Sll | Op::Slt | Op::Sltu => Form::Register,
            Op::Xor | Op::Srl | Op::Sra | Op::Or | Op::And => Form::Register,
            Op::Mul | Op::Mulh | Op::Mulhsu | Op::Mulhu => Form::Register,
            Op::Div | Op::Divu | Op::Rem | Op::Remu => Form::Register,
            Op::Fence => Form::Fence,
            Op::Ecall | Op::Ebreak => Form::Whole,
        }
    }

    /// The operation's mnemonic, in lower case.
    pub fn name(self) -> &'static str
        ensures { result.now ≡ name_of self }
    {
        match self {
            Op::Lui => "lui",
            Op::Auipc => "auipc",
            Op::Jal => "jal",
            Op::Jalr => "jalr",
            Op::Beq => "beq",
            Op::Bne => "bne",
            Op::Blt => "blt",
            Op::Bge => "bge",
            Op::Bltu => "bltu",
            Op::Bgeu => "bgeu",
            Op::Lb => "lb",
            Op::Lh => "lh",
            Op::Lw => "lw",
            Op::Lbu => "lbu",
            Op::Lhu => "lhu",
            Op::Sb => "sb",
            Op::Sh => "sh",
            Op::Sw => "sw",
            Op::Addi => "addi",
            Op::Slti => "slti",
            Op::Sltiu => "sltiu",
            Op::Xori => "xori",
            Op::Ori => "ori",
            Op::Andi => "andi",
            Op::Slli => "slli",
            Op::Srli => "srli",
            Op::Srai => "srai",
            Op::Add => "add",
            Op::Sub => "sub",
            Op::Sll => "sll",
            Op::Slt => "slt",
            Op::Sltu => "sltu",
            Op::Xor => "xor",
            Op::Srl => "srl",
            Op::Sra => "sra",
            Op::Or => "or",
            Op::And => "and",
            Op::Mul => "mul",
            Op::Mulh => "mulh",
            Op::Mulhsu => "mulhsu",
            Op::Mulhu => "mulhu",
            Op::Div => "div",
            Op::Divu => "divu",
            Op::Rem => "rem",
            Op::Remu => "remu",
            Op::Fence => "fence",
            Op::Ecall => "ecall",
            Op::Ebreak => "ebreak",
        }
    }
}
