//! Grids, studies, boards, explorations and reports that run out of memory, at each growth of each call in turn.

mod boards;
mod explorations;
mod in_hand;
mod studies;
mod tables;
