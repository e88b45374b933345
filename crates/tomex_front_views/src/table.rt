//! The front as a table.

pub mod front;
pub mod heading;
pub mod rate;
