//! The effects of instructions on the machine: writes of registers, jumps, loads and stores.

use super::Cpu;
use crate::outcome::{Fault, FaultKind, Stepped};
use std::alloc::Allocator;

impl<'a, A: Allocator> Cpu<'a, A> {
    ghost use Rattle.std.specs.Prelude.{◌≡◌, IfOk, IfErr, ◌%◌, ◌<◌, true, false, nat_eq};
    ghost use Rattle.tomex_rvexec.specs.Machine.{writes, jumps, branches, loads, stores, next_pc, with_register};
    ghost use Rattle.tomex_rvexec.specs.Memory.{from_byte, from_half, byte_read, half_read, word_read, byte_written};
    ghost use Rattle.tomex_rvexec.specs.Memory.{half_written, word_written};
    ghost use Rattle.tomex_rvexec.specs.Run.{Answers};

    fn write_register(&mut self, r: u8, value: u32)
        requires { r < 32 }
        ensures { self.new ≡ record self.old { regs = with_register self.old.regs r value } }
    {
        if r != 0 {
            self.regs[r as usize] = value;
        }
    }

    /// Continues at the next instruction; after the top of 2^32 that is address 0.
    pub(super) fn go_on(&mut self) -> Stepped
        ensures next { result ≡ Stepped.Next }
        ensures pc { self.new ≡ record self.old { pc = next_pc self.old } }
    {
        self.pc = self.pc.wrapping_add(4);
        Stepped::Next
    }

    /// Writes the register and continues at the next instruction.
    pub(super) fn write(&mut self, r: u8, value: u32) -> Result<Stepped, Fault>
        requires { r < 32 }
        ensures { Answers (writes self.old r value) self.old result self.new }
    {
        self.write_register(r, value);
        Ok(self.go_on())
    }

    /// The target of a jump, which must be a multiple of 4. The next fetch tests that it is in
    /// memory.
    fn aligned_target(&self, target: u32) -> Result<u32, Fault>
        ensures ok { IfOk result (λ t. (t ≡ target) × (nat_eq (target % 4) 0 ≡ true)) }
        ensures err { IfErr result (λ e. (nat_eq (target % 4) 0 ≡ false)
            × (e ≡ record { kind = FaultKind.MisalignedTarget; pc = self.now.pc })) }
    {
        if target % 4 == 0 {
            Ok(target)
        } else {
            Err(self.fault(FaultKind::MisalignedTarget))
        }
    }

    /// Jumps and writes the address of the instruction after the jump.
    pub(super) fn jump(&mut self, r: u8, target: u32) -> Result<Stepped, Fault>
        requires { r < 32 }
        ensures { Answers (jumps self.old r target) self.old result self.new }
    {
        let target = self.aligned_target(target)?;
        let link = self.pc.wrapping_add(4);
        self.write_register(r, link);
        self.pc = target;
        Ok(Stepped::Next)
    }

    /// Goes to the target if the branch is taken. A branch that isn't never faults.
    pub(super) fn branch(&mut self, taken: bool, target: u32) -> Result<Stepped, Fault>
        ensures { Answers (branches self.old taken target) self.old result self.new }
    {
        if !taken {
            return Ok(self.go_on());
        }
        self.pc = self.aligned_target(target)?;
        Ok(Stepped::Next)
    }

    /// Loads a byte and extends its sign.
    pub(super) fn load_byte(&mut self, r: u8, address: u32) -> Result<Stepped, Fault>
        requires { r < 32 }
        ensures { Answers (loads self.old r address 1
            (λ m i. from_byte (byte_read m i))) self.old result self.new }
    {
        match self.memory.load_byte(address) {
            Some(value) => self.write(r, value),
            None => Err(self.fault(FaultKind::Access)),
        }
    }

    /// Loads two bytes and extends their sign.
    pub(super) fn load_half(&mut self, r: u8, address: u32) -> Result<Stepped, Fault>
        requires { r < 32 }
        ensures { Answers (loads self.old r address 2
            (λ m i. from_half (half_read m i))) self.old result self.new }
    {
        match self.memory.load_half(address) {
            Some(value) => self.write(r, value),
            None => Err(self.fault(FaultKind::Access)),
        }
    }

    /// Loads four bytes.
    pub(super) fn load_word(&mut self, r: u8, address: u32) -> Result<Stepped, Fault>
        requires { r < 32 }
        ensures { Answers (loads self.old r address 4
            (λ m i. word_read m i)) self.old result self.new }
    {
        match self.memory.load_word(address) {
            Some(value) => self.write(r, value),
            None => Err(self.fault(FaultKind::Access)),
        }
    }

    /// Loads a byte and extends it with zeros.
    pub(super) fn load_byte_unsigned(&mut self, r: u8, address: u32) -> Result<Stepped, Fault>
        requires { r < 32 }
        ensures { Answers (loads self.old r address 1
            (λ m i. byte_read m i)) self.old result self.new }
    {
        match self.memory.load_byte_unsigned(address) {
            Some(value) => self.write(r, value),
            None => Err(self.fault(FaultKind::Access)),
        }
    }

    /// Loads two bytes and extends them with zeros.
    pub(super) fn load_half_unsigned(&mut self, r: u8, address: u32) -> Result<Stepped, Fault>
        requires { r < 32 }
        ensures { Answers (loads self.old r address 2
            (λ m i. half_read m i)) self.old result self.new }
    {
        match self.memory.load_half_unsigned(address) {
            Some(value) => self.write(r, value),
            None => Err(self.fault(FaultKind::Access)),
        }
    }

    /// Stores the low byte of a word.
    pub(super) fn store_byte(&mut self, address: u32, value: u32) -> Result<Stepped, Fault>
        ensures { Answers (stores self.old address 1
            (λ m i. byte_written m i value)) self.old result self.new }
    {
        if self.memory.store_byte(address, value) {
            Ok(self.go_on())
        } else {
            Err(self.fault(FaultKind::Access))
        }
    }

    /// Stores the low two bytes of a word.
    pub(super) fn store_half(&mut self, address: u32, value: u32) -> Result<Stepped, Fault>
        ensures { Answers (stores self.old address 2
            (λ m i. half_written m i value)) self.old result self.new }
    {
        if self.memory.store_half(address, value) {
            Ok(self.go_on())
        } else {
            Err(self.fault(FaultKind::Access))
        }
    }

    /// Stores a word.
    pub(super) fn store_word(&mut self, address: u32, value: u32) -> Result<Stepped, Fault>
        ensures { Answers (stores self.old address 4
            (λ m i. word_written m i value)) self.old result self.new }
    {
        if self.memory.store_word(address, value) {
            Ok(self.go_on())
        } else {
            Err(self.fault(FaultKind::Access))
        }
    }
}
