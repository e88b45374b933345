//! The ends of all programs on a front row.

use crate::ends::ProgramEnd;
use std::alloc::{Allocator, Global};

/// The end of each program on a row, in the study's order.
#[derive(Drop)]
pub struct RowEnds<A: Allocator = Global> {
    pub programs: Vec<ProgramEnd<A>, A>,
}
