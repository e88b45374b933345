//! A worker that runs out of memory with a row in hand.

use crate::answers::{LOOP_ALONE, explored};
use std::alloc::AllocError;
use std::sync::Wait;
use std::sync::atomic::{AtomicU64, Ordering};
use std::test::Fail;
use std::thread;
use std::thread::Threads;
use tomex_sweep::{Gate, SweepError};
use tomex_tests_fixtures::studies::DROPPED;
use tomex_tests_fixtures::{Heap, heap_of};

/// As worker 1 begins with a row, it spends all memory that is left; worker 0 is held until then.
#[derive(Drop)]
struct Spending {
    heap: Heap,
    spent: AtomicU64,
}

/// The most turns that worker 0 is held.
const TURNS: u32 = 10_000_000;

impl Gate for Spending {
    fn before(&self, worker: usize, _row: usize) {
        for _ in 0..TURNS {
            if self.spent.load(Ordering::SeqCst) == 1 {
                return;
            }
            if worker == 1 && Vec::<u64, _>::with_capacity(&self.heap, 1).is_err() {
                self.spent.store(1, Ordering::SeqCst);
            }
            thread::yield_now();
        }
    }
}

/// True if two workers report that memory is refused, once a row is in hand.
fn is_refused<R: AllocGlobal + Threads + Wait + Sync>(rt: &R) -> Result<bool, AllocError> {
    let heap = heap_of(rt.alloc(), 2_000)?;
    let gate = Spending {
        heap: heap.clone()?,
        spent: AtomicU64::new(0),
    };
    let marks = explored(rt, heap, DROPPED, &LOOP_ALONE, 2, &gate);
    Ok(marks.err() == Some(SweepError::Memory))
}

#[test]
fn memory_is_refused_with_a_row_in_hand(rt: HostRuntime) -> Result<(), Fail> {
    assert!(rt; is_refused(&rt)?);
    Ok(())
}
