//! Which rows are dropped, and at which look.

use crate::answers::{LOOP_ALONE, explored};
use std::sync::Wait;
use std::test::Fail;
use std::thread::Threads;
use tomex_sweep::{Mark, OpenGate, SweepError};
use tomex_tests_fixtures::ample;

mod many;
mod refused;
pub mod shared;

/// Three rows, whose alu units are slower and cost more.
pub const THREE: &str = "[[program]]\nname = \"loop\"\nfile = \"loop.bin\"\n\
    [[unit.alu]]\nlatency = 1\nprice = 5\n[[unit.alu]]\nlatency = 2\nprice = 9\n\
    [[unit.alu]]\nlatency = 3\nprice = 9\n";

/// Two such rows, and a weight of 2.
const WEIGHED: &str = "[[program]]\nname = \"loop\"\nfile = \"loop.bin\"\nweight = 2\n\
    [[unit.alu]]\nlatency = 1\nprice = 5\n[[unit.alu]]\nlatency = 2\nprice = 9\n";

/// True if one worker gives a study's rows these marks.
fn gives_marks<R: AllocGlobal + Threads + Wait + Sync>(
    rt: &R,
    document: &str,
    marks: &[Mark],
) -> Result<bool, SweepError> {
    let found = explored(rt, ample(rt.alloc())?, document, &LOOP_ALONE, 1, &OpenGate)?;
    Ok(found.as_slice() == marks)
}

/// The slow rows take 2,500 and 3,000 cycles. A worker looks at each multiple of 1,024. At 2,048
/// these rows are still running, and 2,000 cycles are fewer; at the next look they are over.
#[test]
fn rows_are_dropped_at_the_first_look_that_may(rt: HostRuntime) -> Result<(), Fail> {
    let marks = [Mark::Finished(2000), Mark::Dropped(0), Mark::Dropped(0)];
    assert!(rt; gives_marks(&rt, THREE, marks.as_slice())?);
    Ok(())
}

/// The slow row makes 2,500 cycles. At 2,048 of them, weighted 4,096, it has more than the fast
/// row's 4,000.
#[test]
fn a_look_knows_the_weight(rt: HostRuntime) -> Result<(), Fail> {
    let marks = [Mark::Finished(4000), Mark::Dropped(0)];
    assert!(rt; gives_marks(&rt, WEIGHED, marks.as_slice())?);
    Ok(())
}
