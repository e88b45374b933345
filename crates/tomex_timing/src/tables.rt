//! The tables after a cycle: what they show of stations and registers.

ghost use Rattle.std.specs.Prelude.{◌≡◌};

use std::marker::Model;
use tomex_rvdec::{Instr, PoolId};

/// A station's name, which waiting operands and registers carry.
#[derive(Clone, Copy, PartialEq, Eq)]
pub struct Tag {
    pub pool: PoolId,
    pub number: u8,
}

/// A station's field for an operand: V, or Q, or neither if the instruction doesn't read it.
#[derive(Clone, Copy, PartialEq, Eq)]
pub enum Field {
    Value(u32),
    Waits(Tag),
    Unread,
}

/// The fields of a busy station. Only loads and stores have A.
#[derive(Clone, Copy, PartialEq, Eq)]
pub struct Busy {
    pub tag: Tag,
    pub instr: Instr,
    pub j: Field,
    pub k: Field,
    pub a: Option<u32>,
}

/// The busy stations and the register status after a cycle.
#[derive(Drop)]
pub struct Tables {
    cycle: u64,
    busy: [Option<Busy>; 96],
    registers: [Option<Tag>; 32],
}

impl Model for Tables {
    ghost use Rattle.std.specs.List.{filter_map};
    ghost use Rattle.tomex_timing.specs.Tables.{Tables};

    ghost Value = { Tables };

    ghost view = { λ t. record {
      cycle = t.cycle;
      busy = filter_map
          (λ b. b) t.busy;
      registers = t.registers;
    } };
}

impl Tables {
    ghost use Rattle.std.specs.List.{filter_map};

    /// The tables of these stations and this register status.
    pub fn new(cycle: u64, busy: [Option<Busy>; 96], registers: [Option<Tag>; 32]) -> Tables
        ensures cycle { result.cycle ≡ cycle }
        ensures busy { result.busy ≡ filter_map (λ b. b) busy }
        ensures registers { result.registers ≡ registers }
    {
        Tables {
            cycle,
            busy,
            registers,
        }
    }

    /// The cycle after which the tables are taken.
    pub fn cycle(&self) -> u64
        ensures { result ≡ self.now.cycle }
    {
        self.cycle
    }

    /// The busy stations: 16 places a pool, in the order of the pools.
    pub fn busy(&self) -> &[Option<Busy>; 96]
        ensures { filter_map (λ b. b) result.now ≡ self.now.busy }
    {
        &self.busy
    }

    /// Qi of each register.
    pub fn registers(&self) -> &[Option<Tag>; 32]
        ensures { result.now ≡ self.now.registers }
    {
        &self.registers
    }
}
