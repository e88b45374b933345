//! More workers than rows, more rows than workers: each row is run once.

use super::THREE;
use crate::answers::{LOOP_ALONE, explored};
use std::alloc::{AllocError, Global};
use std::sync::Wait;
use std::sync::atomic::{AtomicU64, Ordering};
use std::test::Fail;
use std::thread::Threads;
use tomex_sweep::{Gate, SweepError};
use tomex_tests_fixtures::ample;

/// Counts the calls for each row.
#[derive(Drop)]
struct Counting<'a> {
    calls: &'a [AtomicU64],
}

impl<'a> Gate for Counting<'a> {
    fn before(&self, _worker: usize, row: usize) {
        if let Some(calls) = self.calls.get(row) {
            calls.fetch_add(1, Ordering::SeqCst);
        }
    }
}

/// A count of calls for each of `rows` rows.
fn counts(alloc: Global, rows: usize) -> Result<Vec<AtomicU64>, AllocError> {
    let mut calls = Vec::new(alloc);
    for _ in 0..rows {
        calls.push(AtomicU64::new(0))?;
    }
    Ok(calls)
}

/// True if each count is 1.
fn are_one(calls: &[AtomicU64]) -> bool {
    let mut same = true;
    for count in calls {
        same = same && count.load(Ordering::SeqCst) == 1;
    }
    same
}

/// True if this number of workers runs each of `rows` rows once.
fn is_run_once<R: AllocGlobal + Threads + Wait + Sync>(
    rt: &R,
    document: &str,
    rows: usize,
    workers: usize,
) -> Result<bool, SweepError> {
    let calls = counts(rt.alloc(), rows)?;
    let gate = Counting {
        calls: calls.as_slice(),
    };
    let heap = ample(rt.alloc())?;
    let marks = explored(rt, heap, document, &LOOP_ALONE, workers, &gate)?;
    Ok(marks.len() == rows && are_one(calls.as_slice()))
}

/// A single row.
const ALONE: &str = "[[program]]\nname = \"loop\"\nfile = \"loop.bin\"\n";

/// Seven equal rows.
const EQUAL: &str = "[[program]]\nname = \"loop\"\nfile = \"loop.bin\"\n\
    [[unit.div]]\n[[unit.div]]\n[[unit.div]]\n[[unit.div]]\n[[unit.div]]\n[[unit.div]]\n[[unit.div]]\n";

/// Rows that may be dropped, equal ones, and a single one, with the number of workers.
static TURNS: [(&str, usize, usize); 9] = [
    (THREE, 3, 1),
    (THREE, 3, 2),
    (THREE, 3, 3),
    (THREE, 3, 32),
    (EQUAL, 7, 1),
    (EQUAL, 7, 3),
    (EQUAL, 7, 32),
    (ALONE, 1, 1),
    (ALONE, 1, 2),
];

#[test]
fn each_row_is_run_once(rt: HostRuntime) -> Result<(), Fail> {
    for (document, rows, workers) in &TURNS {
        assert!(rt; is_run_once(&rt, document, *rows, *workers)?);
    }
    Ok(())
}
