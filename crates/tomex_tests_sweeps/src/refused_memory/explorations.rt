//! Reports: each allocation of the reading of a study, of its exploration or of the runs of all rows, of the runs of
//! the front again and of the text is refused in turn.

use crate::answers::{granted, report_in};
use std::alloc::AllocError;
use std::sync::Wait;
use std::test::Fail;
use std::thread::Threads;
use tomex_sweep::OpenGate;
use tomex_tests_fixtures::programs::PRODUCT;
use tomex_tests_fixtures::refusals_of;

/// Two rows, of two alu stations and of one; both are on the front.
const PRICED: &str = "[[program]]\nname = \"mul\"\nfile = \"mul.bin\"\n[prices]\nalu = 10\n\
    [axes]\nalu = [2, 1]\n[[unit.mul]]\nlatency = 3\n";

/// The number of blocks that the report of the study takes, with this number of workers, or, with `None`, by the call
/// that runs each row to its end.
fn blocks_of_answer<R: AllocGlobal + Threads + Wait + Sync>(
    rt: &R,
    workers: Option<usize>,
) -> Result<Option<u64>, AllocError> {
    let file = PRODUCT.as_slice();
    let blocks = refusals_of!(rt.alloc(), heap => {
        granted(report_in(rt, heap, PRICED, file, workers, &OpenGate).is_ok())
    });
    Ok(blocks)
}

#[test]
fn of_answers(rt: HostRuntime) -> Result<(), Fail> {
    for workers in [None, Some(1), Some(2)] {
        assert!(rt; blocks_of_answer(&rt, workers)? > Some(12));
    }
    Ok(())
}
