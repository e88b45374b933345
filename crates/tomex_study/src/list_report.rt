//! What is found out of a study beside its rows: of each of its lists, and of the fewest cycles that machines can take.
//! Who finds it is in crates above; who prints it needs to know no more.

use std::alloc::Global;
use std::marker::Model;
use tomex_config::{Config, Part};

/// The fewest cycles that a cost buys: of a study's rows, and fewer of those with the new machines of a list.
#[derive(Clone, Copy, Drop, PartialEq, Eq)]
pub struct Saving {
    pub cost: u64,
    pub now: u64,
    pub new: u64,
}

/// The fewest cycles of a study's rows, and what no machine with the latencies of one of them goes below. All are in
/// cycles times the programs' weights.
#[derive(Clone, Copy, Drop)]
pub struct Floors {
    /// The fewest of a row.
    pub fastest: u64,
    /// The least floor of a row at its own width.
    pub own: u64,
    /// The least floor of a row at the greatest width.
    pub any_width: u64,
}

/// What is found out of a part's list. A choice of the list is a configuration that has it.
#[derive(Drop)]
pub struct ListReport {
    pub part: Part,
    /// The choices that some row of the front has, and the others.
    pub front: Vec<Config>,
    pub unused: Vec<Config>,
    /// The choices that the list lacks and that are worth adding.
    pub additions: Vec<Config>,
    /// The greatest saving of the list, if it were complete, at the least cost.
    pub saving: Option<Saving>,
    /// The least number of the part from which on, up to the most, no program's cycles change on any row.
    pub enough: u8,
}

impl Model for ListReport {
    ghost use Rattle.tomex_study.specs.ListFindings.{ListFindings};

    ghost Value = { ListFindings };

    ghost view = { λ l. record {
      part = l.part;
      front = l.front.items;
      unused = l.unused.items;
      additions = l.additions.items;
      saving = l.saving;
      enough = l.enough;
    } };
}
