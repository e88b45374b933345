//! The source of the next instruction.

ghost use Rattle.std.specs.Prelude.{◌≡◌};
ghost use Rattle.tomex_rvexec.specs.declared.step.Step.{Step};
ghost use Rattle.tomex_rvexec.specs.Flow.{end_of};
ghost use Rattle.tomex_rvexec.specs.Steps.{is_branch};
ghost use Rattle.tomex_cycle.specs.Views.{stop_of, fetch_after};

use tomex_rvdec::{Instr, Op};
use tomex_rvexec::EndKind;

/// The source of the next instruction.
#[derive(Clone, Copy)]
pub enum Fetch {
    /// From this address.
    At(u32),
    /// From the target of a branch that hasn't finished.
    Waits,
    /// From nowhere: the instruction at this address ended the program.
    Stopped(EndKind, u32),
}

impl Fetch {
    /// The source of the next instruction after `instr` has issued at `pc`.
    pub fn after(instr: Instr, pc: u32) -> Fetch
        ensures { (x : Step) → x.instr ≡ instr → x.pc ≡ pc
            → result ≡ fetch_after x (is_branch x) (end_of x) }
    {
        match instr.op() {
            Op::Ecall => Fetch::Stopped(EndKind::Ecall, pc),
            Op::Ebreak => Fetch::Stopped(EndKind::Ebreak, pc),
            Op::Jal => Fetch::At(pc.wrapping_add(instr.imm())),
            Op::Jalr | Op::Beq | Op::Bne | Op::Blt | Op::Bge | Op::Bltu | Op::Bgeu => Fetch::Waits,
            _ => Fetch::At(pc.wrapping_add(4)),
        }
    }

    /// The kind of the end and its pc; EBREAK at 0 if the program has not ended, which no caller uses.
    pub fn stop(self) -> (EndKind, u32)
        ensures { result ≡ stop_of self }
    {
        match self {
            Fetch::Stopped(kind, pc) => (kind, pc),
            _ => (EndKind::Ebreak, 0),
        }
    }
}
