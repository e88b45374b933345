//! The survey of a worked study by several workers. The modules below: what is evaluated, and studies that are too
//! large.

use crate::{Asked, OF_PRODUCT, ask, outcome_of};
use std::alloc::{AllocError, Global};
use std::test::Fail;
use tomex_study::Surveyed;
use tomex_tests_fixtures::{Heap, Try, ample};
use tomex_texts::rows_report;

mod evaluated;
mod too_large;

pub use evaluated::evaluations;
pub use too_large::length_of_prices;

/// The product on 1, 2 or 4 alu stations, a fast and expensive or a slow and cheap multiplier, and 1 or 2 buses.
const STUDY: &str = "[[program]]\nname = \"mul\"\nfile = \"mul.bin\"\n\
[prices]\nalu = 10\nbus = 25\n[axes]\nalu = [1, 2, 4]\nbuses = [1, 2]\n\
[[unit.mul]]\nlatency = 3\nprice = 40\n[[unit.mul]]\nlatency = 6\nprice = 15\n";

/// The output of an independent implementation.
const ROWS: &str =
    "row,cost,cycles,alu,mul,div,load,store,bru,alu_units,alu_latency,mul_units,mul_latency,\
div_units,div_latency,mem_units,mem_latency,bru_units,bru_latency,buses,mul_cycles,front,hull\n\
0,75,10,1,1,1,1,1,1,1,1,1,3,1,1,1,1,1,1,1,10,1,0\n\
1,100,10,1,1,1,1,1,1,1,1,1,3,1,1,1,1,1,1,2,10,0,0\n\
2,50,13,1,1,1,1,1,1,1,1,1,6,1,1,1,1,1,1,1,13,1,1\n\
3,75,13,1,1,1,1,1,1,1,1,1,6,1,1,1,1,1,1,2,13,0,0\n\
4,85,8,2,1,1,1,1,1,1,1,1,3,1,1,1,1,1,1,1,8,1,1\n\
5,110,8,2,1,1,1,1,1,1,1,1,3,1,1,1,1,1,1,2,8,0,0\n\
6,60,11,2,1,1,1,1,1,1,1,1,6,1,1,1,1,1,1,1,11,1,1\n\
7,85,11,2,1,1,1,1,1,1,1,1,6,1,1,1,1,1,1,2,11,0,0\n\
8,105,8,4,1,1,1,1,1,1,1,1,3,1,1,1,1,1,1,1,8,0,0\n\
9,130,8,4,1,1,1,1,1,1,1,1,3,1,1,1,1,1,1,2,8,0,0\n\
10,80,11,4,1,1,1,1,1,1,1,1,6,1,1,1,1,1,1,1,11,0,0\n\
11,105,11,4,1,1,1,1,1,1,1,1,6,1,1,1,1,1,1,2,11,0,0\n";

/// The number of rows of a survey, if they are those.
pub fn number_of_rows(
    other: Global,
    surveyed: &Surveyed<'_, Heap>,
) -> Result<Option<u64>, AllocError> {
    match outcome_of(rows_report(ample(other)?, other, surveyed), ROWS) {
        Try::Answered => Ok(Some(12)),
        _ => Ok(None),
    }
}

#[test]
fn rows_are_those_of_the_independent_implementation(rt: HostRuntime) -> Result<(), Fail> {
    for workers in [1, 2, 5, 12, 32] {
        let rows = ask(&rt, rt.alloc(), Asked::Rows(workers), STUDY, &OF_PRODUCT)?;
        assert!(rt; rows == Some(12));
    }
    Ok(())
}
