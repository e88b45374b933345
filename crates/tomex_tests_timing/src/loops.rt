//! The loops of a run, with memory and without.

use crate::programs::LOOP;
use std::alloc::AllocError;
use std::test::Fail;
use tomex_loops::Loops;
use tomex_tests_fixtures::runs::run_of;
use tomex_tests_fixtures::{Attempt, Heap, Try, refusals};
use tomex_timing::Run;

/// Finds the loops of a run.
#[derive(Clone, Copy)]
struct Find<'a> {
    run: &'a Run,
}

impl<'a> Attempt for Find<'a> {
    fn attempt(&self, heap: Heap) -> Result<Try, AllocError> {
        if self.run.steps().len() > 1000 {
            return Ok(Try::Wrong);
        }
        match Loops::of(heap, self.run.steps()) {
            Ok(found) => Ok(Try::right_if(
                found.heads() == [1].as_slice() && found.rounds().len() == 498,
            )),
            Err(_) => Ok(Try::Refused),
        }
    }
}

/// The loop's body is entered once and gone round to 498 times.
#[test]
fn a_loop_is_found(rt: HostRuntime) -> Result<(), Fail> {
    let run = run_of(rt.alloc(), &LOOP)?;
    let refused = refusals(rt.alloc(), &Find { run: &run })?;
    // Each of the lists grows at least once.
    assert!(rt; refused > Some(10));
    Ok(())
}
