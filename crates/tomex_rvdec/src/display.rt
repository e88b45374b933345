//! Instructions as the manual's assembler writes them.

use crate::instr::Instr;
use crate::op::Form;
use std::fmt;

impl fmt::Display for Instr {
    ghost use Rattle.std.specs.Prelude.{Some};
    ghost use Rattle.tomex_rvdec.specs.Text.{instr_text};

    ghost output = { λ i. Some (instr_text i) };

    fn fmt<W: fmt::Write>(&self, f: &mut fmt::Formatter<W>) -> fmt::Result {
        let name = self.op().name();
        let (rd, rs1, rs2) = (self.rd(), self.rs1(), self.rs2());
        let imm = self.imm();
        let offset = imm.cast_signed();
        match self.op().form() {
            Form::Register => write!(f, "{name} x{rd},x{rs1},x{rs2}"),
            Form::Immediate => write!(f, "{name} x{rd},x{rs1},{offset}"),
            Form::Offset => write!(f, "{name} x{rd},{offset}(x{rs1})"),
            Form::Shift => write!(f, "{name} x{rd},x{rs1},{imm}"),
            Form::Store => write!(f, "{name} x{rs2},{offset}(x{rs1})"),
            Form::Branch => write!(f, "{name} x{rs1},x{rs2},{offset}"),
            Form::Upper => {
                let upper = imm >> 12;
                write!(f, "{name} x{rd},{upper}")
            }
            Form::Jump => write!(f, "{name} x{rd},{offset}"),
            Form::Fence | Form::Whole => write!(f, "{name}"),
        }
    }
}
