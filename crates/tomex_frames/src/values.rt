//! The values of results.

ghost use Rattle.std.specs.Prelude.{◌≡◌, ◌<◌, drop, OnOk};
ghost use Rattle.tomex_layout.specs.Growth.{Appends};
ghost use Rattle.tomex_rvexec.specs.Steps.{is_number, step_dest};
ghost use Rattle.tomex_frames.specs.Values.{is_read_from, value_in, value_of, value_text};

use std::alloc::{AllocError, Allocator};
use std::fmt::Write;
use tomex_rvexec::{Operand, Step};
use tomex_snapshots::Entry;

/// A run's steps, and its registers at the end. A step has its operands and not its result, which is read from these.
#[derive(Clone, Copy)]
pub struct Values<'a> {
    pub steps: &'a [Step],
    pub last: &'a [u32; 32],
}

/// True if an operand is read from a register.
fn is_read_from(operand: Option<Operand>, register: u8) -> bool
    ensures { result ≡ is_read_from operand register }
{
    match operand {
        Some(operand) => operand.register == register,
        None => false,
    }
}

/// True if a step writes a register.
fn writes(step: &Step, register: u8) -> bool
    ensures { result ≡ is_number (step_dest step.now) register }
{
    match step.dest() {
        Some(dest) => dest == register,
        None => false,
    }
}

/// The value of a register before these steps, the last of a run; none if it is written before it is read.
fn value_in(last: &[u32; 32], register: u8, later: &[Step]) -> Option<u32>
    requires { register < 32 }
    ensures { result ≡ value_in last.now register later.now }
{
    for step in later {
        if is_read_from(step.j(), register) {
            return Some(step.vj);
        }
        if is_read_from(step.k(), register) {
            return Some(step.vk);
        }
        if writes(step, register) {
            return None;
        }
    }
    Some(last[register as usize])
}

/// The steps after the first ones, `count` in number.
fn after(steps: &[Step], count: usize) -> &[Step]
    ensures { result.now ≡ drop count steps.now }
{
    let from = count.min(steps.len());
    &steps[from..]
}

impl Values<'_> {
    /// The value of a step's result, if it has one and somebody reads it, or it is there at the end.
    fn value_of(&self, entry: &Entry) -> Option<u32>
        ensures { result ≡ value_of self.now.steps.now self.now.last.now entry.now }
    {
        match entry.step.dest() {
            Some(register) => value_in(self.last, register, after(self.steps, entry.number)),
            None => None,
        }
    }
}

/// Adds the value of a step's result, if it is known.
pub fn push_value<A: Allocator>(
    text: &mut String<A>,
    values: &Values<'_>,
    entry: &Entry,
) -> Result<(), AllocError>
    ensures { OnOk result (Appends
        (value_text (value_of values.now.steps.now values.now.last.now entry.now)) text.old text.new) }
{
    match values.value_of(entry) {
        Some(value) => write!(text, "={value:08x}"),
        None => Ok(()),
    }
}
