//! The parts of a Tomasulo machine that an instruction uses: the pool of
//! reservation stations in which it waits, and the functional unit that runs it.

ghost use Rattle.std.specs.Prelude.{◌≡◌, ◌<◌, Some};
ghost use Rattle.tomex_rvdec.specs.Places.{place_of_pool, place_of_unit, name_of_pool, name_of_unit};

use std::fmt;

/// A pool of reservation stations. The load and store pools are the machine's
/// load and store buffers.
#[derive(Clone, Copy, PartialEq, Eq)]
pub enum PoolId {
    Alu,
    Mul,
    Div,
    Load,
    Store,
    Bru,
}

impl PoolId {
    /// All pools, in the order in which configurations, tables and reports list them.
    pub const ALL: [PoolId; 6] = [
        PoolId::Alu,
        PoolId::Mul,
        PoolId::Div,
        PoolId::Load,
        PoolId::Store,
        PoolId::Bru,
    ];

    /// The pool's place in that order, from 0.
    pub fn place(self) -> usize
        ensures place { result ≡ place_of_pool self }
        ensures few { result < 6 }
    {
        match self {
            PoolId::Alu => 0,
            PoolId::Mul => 1,
            PoolId::Div => 2,
            PoolId::Load => 3,
            PoolId::Store => 4,
            PoolId::Bru => 5,
        }
    }

    /// The pool's name in studies and reports.
    pub fn name(self) -> &'static str
        ensures { result.now ≡ name_of_pool self }
    {
        match self {
            PoolId::Alu => "alu",
            PoolId::Mul => "mul",
            PoolId::Div => "div",
            PoolId::Load => "load",
            PoolId::Store => "store",
            PoolId::Bru => "bru",
        }
    }
}

impl fmt::Display for PoolId {
    ghost output = { λ pool. Some (name_of_pool pool) };

    fn fmt<W: fmt::Write>(&self, f: &mut fmt::Formatter<W>) -> fmt::Result {
        let name = self.name();
        write!(f, "{name}")
    }
}

/// A kind of functional unit. Loads and stores share the memory ports, `Mem`.
#[derive(Clone, Copy, Debug, PartialEq, Eq)]
pub enum UnitId {
    Alu,
    Mul,
    Div,
    Mem,
    Bru,
}

impl UnitId {
    /// All kinds, in the order in which configurations and reports list them.
    pub const ALL: [UnitId; 5] = [
        UnitId::Alu,
        UnitId::Mul,
        UnitId::Div,
        UnitId::Mem,
        UnitId::Bru,
    ];

    /// The kind's place in that order, from 0.
    pub fn place(self) -> usize
        ensures place { result ≡ place_of_unit self }
        ensures few { result < 5 }
    {
        match self {
            UnitId::Alu => 0,
            UnitId::Mul => 1,
            UnitId::Div => 2,
            UnitId::Mem => 3,
            UnitId::Bru => 4,
        }
    }

    /// The kind's name in studies and reports.
    pub fn name(self) -> &'static str
        ensures { result.now ≡ name_of_unit self }
    {
        match self {
            UnitId::Alu => "alu",
            UnitId::Mul => "mul",
            UnitId::Div => "div",
            UnitId::Mem => "mem",
            UnitId::Bru => "bru",
        }
    }
}

impl fmt::Display for UnitId {
    ghost output = { λ unit. Some (name_of_unit unit) };

    fn fmt<W: fmt::Write>(&self, f: &mut fmt::Formatter<W>) -> fmt::Result {
        let name = self.name();
        write!(f, "{name}")
    }
}
