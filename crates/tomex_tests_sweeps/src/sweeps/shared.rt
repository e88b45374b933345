//! Runs that rows share: the number of programs that are new to a worker on the rows that it takes.

use crate::answers::explored;
use std::sync::Wait;
use std::sync::atomic::{AtomicU64, Ordering};
use std::test::Fail;
use std::thread::Threads;
use tomex_sweep::{Gate, SweepError};
use tomex_tests_fixtures::ample;
use tomex_tests_fixtures::programs::LOOP;

/// Counts the rows, and the programs that are new on them.
#[derive(Drop)]
pub struct Counting {
    rows: AtomicU64,
    runs: AtomicU64,
}

impl Counting {
    pub fn new() -> Counting {
        Counting {
            rows: AtomicU64::new(0),
            runs: AtomicU64::new(0),
        }
    }

    /// The number of rows that were taken, and of the programs that were new on them.
    pub fn counts(&self) -> [u64; 2] {
        [
            self.rows.load(Ordering::SeqCst),
            self.runs.load(Ordering::SeqCst),
        ]
    }
}

impl Gate for Counting {
    fn before(&self, _worker: usize, _row: usize) {
        self.rows.fetch_add(1, Ordering::SeqCst);
    }

    fn runs(&self, _worker: usize, _row: usize, programs: usize) {
        self.runs.fetch_add(programs as u64, Ordering::SeqCst);
    }
}

/// `addi x1,x0,400; mul x2,x1,x1; addi x1,x1,-1; bne x1,x0,-8; ebreak`
const PRODUCTS: &[u8; 20] = b"\x93\x00\x00\x19\x33\x81\x10\x02\x93\x80\xf0\xff\
    \xe3\x9c\x00\xfe\x73\x00\x10\x00";

/// The loop of products, and the plain one.
static BOTH: [&[u8]; 2] = [PRODUCTS, LOOP];

/// Rows that differ in the dividers and their stations, which neither of two programs uses.
const DIVIDED: &str = "[[program]]\nname = \"products\"\nfile = \"products.bin\"\n\
    [[program]]\nname = \"loop\"\nfile = \"loop.bin\"\n\
    [axes]\ndiv = [1, 2, 3, 4, 5, 6, 7, 8, 9, 10, 11, 12, 13, 14, 15, 16]\n\
    [[unit.mul]]\nlatency = 3\n\
    [[unit.div]]\nlatency = 4\n[[unit.div]]\nunits = 2\nlatency = 8\n\
    [[unit.div]]\nunits = 3\nlatency = 12\n[[unit.div]]\nunits = 4\nlatency = 16\n";

/// The number of rows that one worker takes, and of the programs that are new to it on them.
fn counted<R: AllocGlobal + Threads + Wait + Sync>(rt: &R) -> Result<[u64; 2], SweepError> {
    let gate = Counting::new();
    explored(rt, ample(rt.alloc())?, DIVIDED, &BOTH, 1, &gate)?;
    Ok(gate.counts())
}

/// Each of two programs is evaluated once if only a part differs that neither uses, and each row
/// has its turn.
#[test]
fn rows_that_cannot_differ_share_a_run(rt: HostRuntime) -> Result<(), Fail> {
    assert!(rt; counted(&rt)? == [64, 2]);
    Ok(())
}
