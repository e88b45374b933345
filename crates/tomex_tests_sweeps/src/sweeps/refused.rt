//! A thread that can't be started.

use super::THREE;
use crate::answers::{LOOP_ALONE, explored_on};
use core::thread::Stack;
use std::alloc::AllocError;
use std::sync::Wait;
use std::test::Fail;
use std::thread::Threads;
use tomex_sweep::{OpenGate, Stacks, SweepError};
use tomex_tests_fixtures::ample;

/// Stacks, of which one worker's is too large for any thread.
#[derive(Drop)]
struct Absurd {
    worker: usize,
}

impl Stacks for Absurd {
    fn stack_of(&self, worker: usize) -> Stack {
        if worker == self.worker {
            Stack::new().stack_size(usize::MAX)
        } else {
            Stack::new()
        }
    }
}

/// True if this number of workers report that this one's thread is refused.
fn is_said<R: AllocGlobal + Threads + Wait + Sync>(
    rt: &R,
    worker: usize,
    workers: usize,
) -> Result<bool, AllocError> {
    let (heap, stacks) = (ample(rt.alloc())?, Absurd { worker });
    let marks = explored_on(rt, heap, THREE, &LOOP_ALONE, workers, &OpenGate, &stacks);
    Ok(marks.err() == Some(SweepError::Worker))
}

/// Workers whose thread is refused, and how many there are.
static REFUSED: [(usize, usize); 4] = [(0, 1), (0, 3), (1, 2), (2, 3)];

#[test]
fn a_refused_thread_is_an_error(rt: HostRuntime) -> Result<(), Fail> {
    for (worker, workers) in &REFUSED {
        assert!(rt; is_said(&rt, *worker, *workers)?);
    }
    Ok(())
}
