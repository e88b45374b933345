//! A busy reservation station.

ghost use Rattle.std.specs.Prelude.{◌≡◌, Some};
ghost use Rattle.tomex_tags.specs.Operands.{is_there, value_in, field_after, only};
ghost use Rattle.tomex_tags.specs.Contents.{bytes_in, busy_from, is_memory_op, is_ready};
ghost use Rattle.tomex_tags.specs.Contents.{is_waiting, lacks_address, step_in};

use crate::places::place;
use tomex_rvdec::{Instr, Op};
use tomex_rvexec::{ByteRange, Step};
use tomex_timing::{Busy, Field, Tag};

/// A busy station: an instruction that has issued and hasn't ended.
///
/// The order of its fields leaves no gaps: an `Option<Station>` takes 64 bytes.
#[derive(Clone, Copy)]
pub struct Station {
    pub instr: Instr,
    pub pc: u32,
    /// The operands: a value (V), a tag (Q), or nothing that is read.
    pub j: Field,
    pub k: Field,
    /// The address of a load or store, from its address cycle on; before that `None`.
    pub address: Option<u32>,
    /// The result, from the start on, and 0 before.
    pub value: u32,
    /// The cycle in which the unit is done, from the start on.
    pub finish: Option<u64>,
}

/// True if the operand isn't a Q.
#[inline(always)]
fn is_there(field: Field) -> bool
    ensures { result ≡ is_there field }
{
    match field {
        Field::Waits(_) => false,
        _ => true,
    }
}

/// The value of an operand; 0 if it isn't there.
#[inline(always)]
fn value(field: Field) -> u32
    ensures { result ≡ value_in field }
{
    match field {
        Field::Value(value) => value,
        _ => 0,
    }
}

/// The operand after a place has sent a value.
#[inline(always)]
pub(crate) fn field_after(field: Field, from: usize, value: u32) -> Field
    ensures { result ≡ field_after (only from (Some value)) field }
{
    match field {
        Field::Waits(tag) => {
            if from == place(tag) {
                Field::Value(value)
            } else {
                field
            }
        }
        _ => field,
    }
}

impl Station {
    /// True if both operands are there.
    #[inline(always)]
    pub fn ready(&self) -> bool
        ensures { result ≡ is_ready self.now }
    {
        is_there(self.j) && is_there(self.k)
    }

    /// The step that the station holds, once its operands are there.
    #[inline(always)]
    pub fn step(&self) -> Step
        ensures { result ≡ step_in self.now }
    {
        Step {
            instr: self.instr,
            pc: self.pc,
            vj: value(self.j),
            vk: value(self.k),
        }
    }

    /// True if it holds a load or store.
    #[inline(always)]
    pub(crate) fn is_memory(&self) -> bool
        ensures { result ≡ is_memory_op self.now.instr.op }
    {
        match self.instr.op() {
            Op::Lb | Op::Lh | Op::Lw | Op::Lbu | Op::Lhu | Op::Sb | Op::Sh | Op::Sw => true,
            _ => false,
        }
    }

    /// True if it holds a load or store whose address isn't computed yet.
    #[inline(always)]
    pub(crate) fn lacks_address(&self) -> bool
        ensures { result ≡ lacks_address (Some self.now) }
    {
        self.is_memory() && self.address.is_none()
    }

    /// The bytes of an access whose address is known.
    #[inline(always)]
    pub fn bytes(&self) -> Option<ByteRange>
        ensures { result ≡ bytes_in self.now }
    {
        match self.address {
            Some(address) => ByteRange::at(self.instr.op(), address),
            None => None,
        }
    }

    /// True if it waits only for a unit and for older accesses.
    #[inline(always)]
    pub(crate) fn is_waiting(&self) -> bool
        ensures { result ≡ is_waiting self.now }
    {
        self.finish.is_none() && self.ready() && (!self.is_memory() || self.address.is_some())
    }

    /// True if its second operand is there.
    #[inline(always)]
    pub(crate) fn has_second(&self) -> bool
        ensures { result ≡ is_there self.now.k }
    {
        is_there(self.k)
    }

    /// The tables' entry for it.
    pub fn busy_entry(&self, tag: Tag) -> Busy
        ensures { result ≡ busy_from tag self.now }
    {
        let a = if self.is_memory() {
            match self.address {
                Some(address) => Some(address),
                None => Some(self.instr.imm()),
            }
        } else {
            None
        };
        Busy {
            tag,
            instr: self.instr,
            j: self.j,
            k: self.k,
            a,
        }
    }
}
