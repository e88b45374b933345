//! The floor of a stretch of a run, which begins in the middle of the run: what no machine saves of the stretch. And
//! what each step has of a run's cycles and of its stretch's floor.
//!
//! `specs/Stretch.antt` and `specs/Cycles.antt` are the definitions, over the floors of `tomex_floor`;
//! `specs/Laws.antt` says what they bound.
#![tactic(auto)]

mod accesses;
mod accounts;
mod adding;
mod floors;
mod latest;
mod laws;
mod next;
mod own;

pub use accounts::{Accounts, accounts_of};
pub use adding::{Sums, sums_by_key};
pub use floors::floor_cycles;
pub use laws::{
    runs_take_their_floors, steps_take_their_floors, stretches_take_their_floors,
    sums_by_key_add_up,
};
pub use own::own_cycles;
