//! The latest of each kind of cycle so far.

ghost use Rattle.std.specs.Prelude.{◌≡◌, ◌<◌, ◌≤◌, ◌-◌, ◌^◌, ℕ, List, [], Option, IfSome};
ghost use Rattle.tomex_rvexec.specs.declared.step.Operand.{Operand};
ghost use Rattle.tomex_timing.specs.declared.times.Done.{Done};
ghost use Rattle.tomex_timing.specs.History.{source_end};
ghost use Rattle.tomex_timing.specs.Recent.{register_of};
ghost use Rattle.tomex_stretches.specs.Kept.{IsLatest, IsLatestBy, latest_after};

use tomex_timing::{Facts, Times};

/// The latest of each kind of cycle so far; 0 if there is none. Cycles are counted on from stretch to stretch.
#[derive(Clone, Copy)]
pub(crate) struct Latest {
    /// The end of each register's youngest writer.
    pub ends: [u64; 32],
    /// The issues of the last four steps, the youngest first.
    pub issues: [u64; 4],
    /// The latest finish of a branch.
    pub branch: u64,
    /// The last address cycle.
    pub address: u64,
    /// The greatest end.
    pub end: u64,
    /// The greatest cycle of all.
    pub last: u64,
    /// The greatest cycle of the older stretches.
    pub base: u64,
}

impl Latest {
    /// The state before the first step.
    pub fn none() -> Latest
        ensures latest { IsLatest [] result }
        ensures by { IsLatestBy 0 result }
        ensures last { result.last ≡ 0 }
    {
        Latest {
            ends: [0; 32],
            issues: [0; 4],
            branch: 0,
            address: 0,
            end: 0,
            last: 0,
            base: 0,
        }
    }

    /// Begins a stretch: what was before doesn't matter to it.
    pub fn begin(&mut self)
        requires { IsLatestBy self.old.last self.old }
        ensures { self.new ≡ record self.old { base = self.old.last } }
    {
        self.base = self.last;
    }

    /// The end of the producer of a register's content; at most `base` without a register, or if an older stretch has
    /// the producer.
    pub fn end_of(&self, register: Option<u8>) -> u64
        requires register { IfSome register (λ r. r < 32) }
        requires by { IsLatestBy self.now.last self.now }
        ensures end { (h : List Done) (operand : Option Operand) → IsLatest h self.now → register ≡ register_of operand
            → result - self.now.base ≡ source_end h operand }
        ensures by { result ≤ self.now.last }
    {
        match register {
            None => 0,
            Some(register) => self.ends[usize::from(register)],
        }
    }

    /// Notes a step with its times.
    pub fn note(&mut self, facts: &Facts, at: &Times)
        requires { IfSome facts.now.dest (λ r. r < 32) }
        ensures { self.new ≡ latest_after facts.now at.now self.old }
    {
        if let Some(register) = facts.dest {
            self.ends[usize::from(register)] = at.end;
        }
        self.issues = [at.issue, self.issues[0], self.issues[1], self.issues[2]];
        if facts.is_branch {
            self.branch = at.finish.max(self.branch);
        }
        if facts.is_memory() {
            self.address = at.address.unwrap_or(0);
        }
        self.end = at.end.max(self.end);
        self.last = at.end.max(at.address.unwrap_or(0)).max(self.last);
    }
}
