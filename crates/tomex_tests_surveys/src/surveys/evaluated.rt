//! The programs that a survey evaluates: what is known of one row isn't evaluated again on another.

use crate::{Asked, ask};
use std::alloc::{AllocError, Global};
use std::sync::atomic::{AtomicU64, Ordering};
use std::test::Fail;
use std::thread::Threads;
use tomex_study::{Gate, Study};
use tomex_survey::survey;
use tomex_tests_fixtures::programs::{LOOP, PRODUCT};
use tomex_tests_fixtures::{Heap, ample};

/// Counts the programs that workers evaluate.
#[derive(Drop)]
struct Counting {
    evaluated: AtomicU64,
}

impl Gate for Counting {
    fn before(&self, _worker: usize, _row: usize) {}

    fn runs(&self, _worker: usize, _row: usize, programs: usize) {
        self.evaluated.fetch_add(programs as u64, Ordering::SeqCst);
    }
}

/// The product and the loop on rows that differ in their stations for divisions and stores, of which neither program
/// has any.
const ALIKE: &str = "[[program]]\nname = \"mul\"\nfile = \"mul.bin\"\n\
[[program]]\nname = \"loop\"\nfile = \"loop.bin\"\n\
[axes]\ndiv = [1, 2, 3, 4, 5, 6, 7, 8, 9, 10, 11, 12, 13, 14, 15, 16]\nstore = [1, 2, 3, 4]\n\
[[unit.mul]]\nlatency = 3\n";

/// Their files.
static FILES: [&[u8]; 2] = [PRODUCT, LOOP];

/// The number of evaluations by one worker.
pub fn evaluations<R: Threads + Sync>(
    rt: &R,
    other: Global,
    study: &Study<Heap>,
) -> Result<Option<u64>, AllocError> {
    let heap = ample(other)?;
    let gate = Counting {
        evaluated: AtomicU64::new(0),
    };
    survey(rt, heap, study, 1, &gate)?;
    Ok(Some(gate.evaluated.load(Ordering::SeqCst)))
}

#[test]
fn each_program_is_evaluated_once_on_rows_that_cannot_differ(rt: HostRuntime) -> Result<(), Fail> {
    assert!(rt; ask(&rt, rt.alloc(), Asked::Evaluations, ALIKE, &FILES)? == Some(2));
    Ok(())
}
