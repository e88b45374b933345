//! The steps of a log, each with the producers of its operands.

ghost use Rattle.std.specs.Prelude.{◌≡◌, ◌<◌, length, IfOk, None, [], replicate};
ghost use Rattle.std.specs.Option.{ForSome};
ghost use Rattle.tomex_rvexec.specs.Steps.{step_dest};
ghost use Rattle.tomex_konata.specs.Konata.{entries_from};
ghost use Rattle.tomex_konata.specs.Kept.{writers_after, writer_in};

use std::alloc::{AllocError, Allocator};
use tomex_rvexec::{Operand, Step};
use tomex_timing::Times;

/// The step that writes an operand, by its place in the log, and the cycle in which it ends.
#[derive(Clone, Copy)]
pub struct Producer {
    pub id: usize,
    pub end: u64,
}

/// A step of the log.
#[derive(Clone, Copy)]
pub struct Entry {
    /// The number of older steps in the log.
    pub id: usize,
    pub step: Step,
    pub at: Times,
    /// The producer of its operand rs1, if the log has one.
    pub j: Option<Producer>,
    /// The producer of its operand rs2, if the log has one.
    pub k: Option<Producer>,
}

/// The youngest step so far that writes each register.
#[derive(Clone, Copy)]
struct Writers {
    of: [Option<Producer>; 32],
}

impl Writers {
    /// The writers before the first step: none.
    fn none() -> Writers
        ensures { result ≡ record { of = replicate 32 None } }
    {
        Writers { of: [None; 32] }
    }

    /// The producer of an operand.
    fn producer(&self, operand: Option<Operand>) -> Option<Producer>
        requires register { ForSome operand (λ o. o.register < 32) }
        ensures { result ≡ writer_in self.now.of operand }
    {
        match operand {
            Some(operand) => self.of[operand.register as usize],
            None => None,
        }
    }

    /// Notes the register that a step writes.
    fn note(&mut self, step: &Step, producer: Producer)
        ensures { self.new.of ≡ writers_after self.old.of (step_dest step.now) producer }
    {
        if let Some(register) = step.dest() {
            self.of[register as usize] = Some(producer);
        }
    }
}

/// The steps of a log, the oldest first.
pub fn entries_of<A: Allocator>(
    alloc: A,
    steps: &[Step],
    times: &[Times],
) -> Result<Vec<Entry, A>, AllocError>
    requires pairs { length times.now ≡ length steps.now }
    ensures { IfOk result (λ entries. entries.items ≡ entries_from [] steps.now times.now) }
{
    let mut entries = Vec::new(alloc);
    let mut writers = Writers::none();
    for (id, step) in steps.iter().enumerate() {
        let at = times[id];
        let j = writers.producer(step.j());
        let k = writers.producer(step.k());
        writers.note(step, Producer { id, end: at.end });
        entries.push(Entry {
            id,
            step: *step,
            at,
            j,
            k,
        })?;
    }
    Ok(entries)
}
