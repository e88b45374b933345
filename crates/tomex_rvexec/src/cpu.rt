//! The in-order machine: registers, pc and memory of one running program.

ghost use Rattle.std.specs.Prelude.{◌≡◌};
ghost use Rattle.tomex_rvexec.specs.Run.{initial_sp};

use crate::end::End;
use crate::fetcher::Fetcher;
use crate::memory::Memory;
use crate::outcome::{EndKind, Fault, FaultKind, Stepped};
use crate::step::Step;
use crate::words::{alu, muldiv, taken};
use std::alloc::{AllocError, Allocator, Global};
use std::marker::Model;
use tomex_image::{Image, Window};
use tomex_rvdec::Op;

mod effects;

/// A program that runs in order, one whole instruction at a time.
///
/// Fetches read the image as it was loaded: a store never changes what is fetched.
#[derive(Drop)]
pub struct Cpu<'a, A: Allocator = Global> {
    fetcher: Fetcher<'a, A>,
    pc: u32,
    regs: [u32; 32],
    memory: Memory<A>,
}

impl<'a, A: Allocator> Model for Cpu<'a, A> {
    ghost use Rattle.std.specs.Prelude.{◌≡◌, length, slice_index};
    ghost use Rattle.tomex_image.specs.Image.{IsLoaded};
    ghost use Rattle.tomex_rvexec.specs.Machine.{State};

    ghost Value = { State };

    ghost view = { λ c. record { image = c.fetcher; pc = c.pc; regs = c.regs; memory = c.memory.bytes } };

    ghost invariant = { λ c. (c.memory.base ≡ c.fetcher.window.base)
        × (length c.memory.bytes ≡ c.fetcher.window.size)
        × IsLoaded c.fetcher.window c.fetcher.memory c.fetcher.entry
        × (slice_index c.regs 0 ≡ 0) };
}

/// The stack pointer before the first step: the end of memory rounded down to a multiple of 16, modulo 2^32.
pub fn initial_sp(window: Window) -> u32
    ensures { result ≡ initial_sp window }
{
    (window.end() / 16 * 16 % (1 << 32)) as u32
}

impl<'a, A: Allocator> Cpu<'a, A> {
    ghost use Rattle.std.specs.Prelude.{◌≡◌, IfOk, IfErr, IfSome, IfNone, Some, ◌<◌, IsTrue, false};
    ghost use Rattle.tomex_rvexec.specs.Machine.{step_of, coming_of, executes, holds};
    ghost use Rattle.tomex_rvexec.specs.Run.{start_of, Answers};

    /// The machine before the first step: all registers zero except x2, the stack pointer; the pc
    /// at the image's entry.
    pub fn new(alloc: A, image: &'a Image<A>) -> Result<Self, AllocError>
        ensures { IfOk result (λ c. c ≡ start_of image.now) }
    {
        let mut bytes = Vec::with_capacity(alloc, image.memory().len())?;
        bytes.extend_from_slice(image.memory())?;
        let window = image.window();
        let mut regs = [0; 32];
        regs[2] = initial_sp(window);
        Ok(Cpu {
            fetcher: Fetcher::new(image),
            pc: image.entry(),
            regs,
            memory: Memory::new(window.base(), bytes),
        })
    }

    /// The address of the next instruction.
    pub fn pc(&self) -> u32
        ensures { result ≡ self.now.pc }
    {
        self.pc
    }

    /// The registers, x0 first.
    pub fn registers(&self) -> [u32; 32]
        ensures { result ≡ self.now.regs }
    {
        self.regs
    }

    /// The bytes of the window, the one at its base first.
    pub fn memory(&self) -> &[u8]
        ensures { result.now ≡ self.now.memory }
    {
        self.memory.bytes()
    }

    /// The fault of this kind, of the instruction at the pc.
    fn fault(&self, kind: FaultKind) -> Fault
        ensures { result ≡ record { kind = kind; pc = self.now.pc } }
    {
        Fault { kind, pc: self.pc }
    }

    /// The instruction at the pc, with its operands' values.
    #[inline(always)]
    #[tactic(auto, unfolding(crate::specs::Machine::step_of))]
    fn fetch_step(&mut self) -> Result<Step, Fault>
        ensures ok { IfOk result
            (λ x. (coming_of self.old ≡ Some x) × IsTrue (holds self.old self.old.pc 4)) }
        ensures err { IfErr result (λ e. Answers (step_of self.old) self.old (Err e) self.old) }
        ensures same { self.new ≡ self.old }
    {
        let instr = match self.fetcher.fetch(self.pc) {
            Ok(instr) => instr,
            Err(kind) => return Err(self.fault(kind)),
        };
        Ok(Step {
            pc: self.pc,
            instr,
            vj: self.regs[instr.rs1() as usize],
            vk: self.regs[instr.rs2() as usize],
        })
    }

    /// Carries out one instruction.
    #[inline(always)]
    fn execute(&mut self, step: &Step) -> Result<Stepped, Fault>
        ensures { Answers (executes step.now.instr.op step.now self.old) self.old result self.new }
    {
        let (op, rd, imm) = (step.instr.op(), step.instr.rd(), step.instr.imm());
        let (vj, vk) = (step.vj, step.vk);
        let address = vj.wrapping_add(imm);
        let target = self.pc.wrapping_add(imm);
        match op {
            Op::Lui => self.write(rd, imm),
            Op::Auipc => self.write(rd, target),
            Op::Addi | Op::Slti | Op::Sltiu => self.write(rd, alu(op, vj, imm)),
            Op::Xori | Op::Ori | Op::Andi => self.write(rd, alu(op, vj, imm)),
            Op::Slli | Op::Srli | Op::Srai => self.write(rd, alu(op, vj, imm)),
            Op::Add | Op::Sub | Op::Slt | Op::Sltu => self.write(rd, alu(op, vj, vk)),
            Op::Xor | Op::Or | Op::And => self.write(rd, alu(op, vj, vk)),
            Op::Sll | Op::Srl | Op::Sra => self.write(rd, alu(op, vj, vk)),
            Op::Mul | Op::Mulh | Op::Mulhsu | Op::Mulhu => self.write(rd, muldiv(op, vj, vk)),
            Op::Div | Op::Divu | Op::Rem | Op::Remu => self.write(rd, muldiv(op, vj, vk)),
            Op::Jal => self.jump(rd, target),
            Op::Jalr => self.jump(rd, address & !1),
            Op::Beq | Op::Bne => self.branch(taken(op, vj, vk), target),
            Op::Blt | Op::Bge | Op::Bltu | Op::Bgeu => self.branch(taken(op, vj, vk), target),
            Op::Lb => self.load_byte(rd, address),
            Op::Lh => self.load_half(rd, address),
            Op::Lw => self.load_word(rd, address),
            Op::Lbu => self.load_byte_unsigned(rd, address),
            Op::Lhu => self.load_half_unsigned(rd, address),
            Op::Sb => self.store_byte(address, vk),
            Op::Sh => self.store_half(address, vk),
            Op::Sw => self.store_word(address, vk),
            Op::Fence => Ok(self.go_on()),
            Op::Ecall => Ok(Stepped::Ended(EndKind::Ecall)),
            Op::Ebreak => Ok(Stepped::Ended(EndKind::Ebreak)),
        }
    }

    /// One step. A fault or an end changes nothing, so the next step returns the same.
    #[tactic(auto, unfolding(crate::specs::Machine::step_of))]
    #[inline(always)]
    pub fn step(&mut self) -> Result<Stepped, Fault>
        ensures { Answers (step_of self.old) self.old result self.new }
    {
        let step = self.fetch_step()?;
        self.execute(&step)
    }

    /// One step, with its record.
    #[tactic(auto, unfolding(crate::specs::Machine::step_of))]
    pub fn record_step(&mut self) -> Result<(Step, Stepped), Fault>
        ensures ok { IfOk result
            (λ r. (coming_of self.old ≡ Some r.0) × Answers (step_of self.old) self.old (Ok r.1) self.new) }
        ensures err { IfErr result (λ e. Answers (step_of self.old) self.old (Err e) self.new) }
    {
        let step = self.fetch_step()?;
        let stepped = self.execute(&step)?;
        Ok((step, stepped))
    }

    /// The end of a run of `steps` steps.
    pub(crate) fn into_end(self, kind: EndKind, steps: u32) -> End<A>
        ensures { (result.kind ≡ kind) × (result.pc ≡ self.entry.pc) × (result.steps ≡ steps)
            × (result.regs ≡ self.entry.regs) × (result.memory.bytes ≡ self.entry.memory)
            × (result.memory.base ≡ self.entry.image.window.base) }
    {
        End {
            kind,
            pc: self.pc,
            steps,
            regs: self.regs,
            memory: self.memory,
        }
    }
}
