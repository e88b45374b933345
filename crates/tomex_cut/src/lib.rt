//! A part of a long run as an image of its own: an ordinary program, whose run is a prologue of 64 steps and then the
//! part's steps.
//!
//! The prologue loads the registers and goes to the part's first pc; it stands in words that the part doesn't use.
//! `specs/Part.antt` says which part it is and where it ends, `specs/Room.antt` where the prologue stands, and
//! `specs/Cut.antt` what the file is and when there is none.
//! Tests: tomex_tests_in_order, tomex_cases.
#![tactic(auto)]

mod cutting;
mod encoding;
mod error;
mod follower;
pub mod laws;
mod prologue;
mod symbol_file;
mod walking;
mod words;

pub use cutting::{cut, cut_with_symbols};
pub use error::CutError;
pub use follower::{Follower, NoFollower};
pub use walking::MOST_STEPS;
