//! Workers that are held before a run while others continue, and many explorations of one study.

mod gates;

use crate::answers::report_in;
use gates::{FirstWaits, RowWaits};
use std::alloc::AllocError;
use std::sync::Wait;
use std::test::Fail;
use std::thread::Threads;
use tomex_sweep::{Gate, OpenGate};
use tomex_tests_fixtures::programs::LOOP;
use tomex_tests_fixtures::studies::{DROPPED, DROPPED_REPORT};
use tomex_tests_fixtures::{Heap, ample, front_report_of};

/// Four rows of equal cost.
const EQUAL: &str = "[[program]]\nname = \"loop\"\nfile = \"loop.bin\"\n\
    [[unit.alu]]\nlatency = 1\nprice = 5\n[[unit.alu]]\nlatency = 1\nprice = 5\n\
    [[unit.alu]]\nlatency = 1\nprice = 5\n[[unit.alu]]\nlatency = 1\nprice = 5\n";

const EQUAL_REPORT: &str = front_report_of!(
    "0,5,2000,1,1,1,1,1,1,1,1,1,1,1,1,1,1,1,1,1,loop,1000,2000,ebreak,x2=00010000,-\n\
     1,5,2000,1,1,1,1,1,1,1,1,1,1,1,1,1,1,1,1,1,loop,1000,2000,ebreak,x2=00010000,-\n\
     2,5,2000,1,1,1,1,1,1,1,1,1,1,1,1,1,1,1,1,1,loop,1000,2000,ebreak,x2=00010000,-\n\
     3,5,2000,1,1,1,1,1,1,1,1,1,1,1,1,1,1,1,1,1,loop,1000,2000,ebreak,x2=00010000,-\n"
);

/// The report of a study of the loop.
fn report_of<R: AllocGlobal + Threads + Wait + Sync, G: Gate + Sync>(
    rt: &R,
    study: &str,
    workers: Option<usize>,
    gate: &G,
) -> Result<Vec<u8, Heap>, AllocError> {
    let heap = ample(rt.alloc())?;
    report_in(rt, heap, study, LOOP.as_slice(), workers, gate)
}

/// True if several workers under this gate give that report.
fn is_reported<R: AllocGlobal + Threads + Wait + Sync, G: Gate + Sync>(
    rt: &R,
    study: &str,
    workers: usize,
    gate: &G,
    wanted: &[u8],
) -> Result<bool, AllocError> {
    Ok(report_of(rt, study, Some(workers), gate)?.as_slice() == wanted)
}

#[test]
fn a_second_thread_calls_while_the_first_is_held(rt: HostRuntime) -> Result<(), Fail> {
    let gate = FirstWaits::new();
    let is_so = is_reported(&rt, DROPPED, 2, &gate, DROPPED_REPORT.as_bytes())?;
    assert!(rt; is_so && gate.has_opened());
    Ok(())
}

/// With two workers rows 0 and 2 are on the list of the first, which is held with row 0: so row 2 is
/// stolen from it.
#[test]
fn a_row_of_a_held_worker_is_stolen(rt: HostRuntime) -> Result<(), Fail> {
    let gate = RowWaits::new(2, 1);
    let is_so = is_reported(&rt, EQUAL, 2, &gate, EQUAL_REPORT.as_bytes())?;
    assert!(rt; is_so && gate.has_opened());
    Ok(())
}

#[test]
fn all_other_rows_are_run_while_one_is_held(rt: HostRuntime) -> Result<(), Fail> {
    let gate = RowWaits::new(1, 3);
    let is_so = is_reported(&rt, EQUAL, 2, &gate, EQUAL_REPORT.as_bytes())?;
    assert!(rt; is_so && gate.has_opened());
    Ok(())
}

/// 200 rows: five numbers of alu stations, five of branch stations, eight of buses.
const ROWS_200: &str =
    "[[program]]\nname = \"loop\"\nfile = \"loop.bin\"\nsize = 4096\n[prices]\nalu = 3\nbru = 2\nbus = 7\n\
    [axes]\nalu = [1, 2, 3, 4, 5]\nbru = [1, 2, 3, 4, 5]\nbuses = [1, 2, 3, 4, 5, 6, 7, 8]\n";

#[test]
fn a_hundred_explorations_give_one_report(rt: HostRuntime) -> Result<(), Fail> {
    let whole = report_of(&rt, ROWS_200, None, &OpenGate)?;
    for _ in 0..100 {
        assert!(rt; is_reported(&rt, ROWS_200, 4, &OpenGate, whole.as_slice())?);
    }
    Ok(())
}
