//! Which parts of a long run stand for it: at most eight, each with the number of the run's stretches that it stands
//! for, and with a weight for a study.
//!
//! `specs/Stretches.antt` says what a run's stretches are, `specs/Leaders.antt` and `specs/Groups.antt` which of them
//! stand for the others, and `specs/Parts.antt` what the answer is and when there is none.
#![tactic(auto)]

mod answer;
mod choosing;
mod chosen;
mod counts;
mod csv;
mod distances;
mod ends;
mod error;
mod groups;
mod leaders;
mod nearness;
mod rounds;
mod stretches;
mod tally;
mod uses;
mod walking;
mod weights;

pub use answer::parts;
pub use chosen::Chosen;
pub use csv::parts_csv;
pub use error::PartsError;
