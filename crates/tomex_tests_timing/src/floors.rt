//! Floors of small runs, compared with those of another implementation of the rules.

use crate::programs::{ACCESSES, FOLLOWED, JUMP, LOOP, PRODUCT, QUOTIENTS, SLOW_MEMORY};
use std::alloc::{AllocError, Global};
use std::test::Fail;
use tomex_config::Config;
use tomex_floor::floors;
use tomex_tests_fixtures::machines::one_unit_each;
use tomex_tests_fixtures::runs::{Program, run_of};
use tomex_tests_fixtures::{Attempt, Heap, Try, refusals};
use tomex_timing::Run;

/// Programs, with the latencies of their machines' units, their floors for each width, and the least number of blocks:
/// stores are kept.
static FLOORS: [(Program, [u8; 5], [u64; 4], u64); 7] = [
    (PRODUCT, [1, 3, 1, 1, 1], [8, 7, 7, 7], 0),
    (FOLLOWED, [1, 5, 1, 2, 1], [12, 11, 11, 11], 1),
    (LOOP, [1, 3, 1, 1, 1], [1999; 4], 0),
    (ACCESSES, [1, 3, 5, 1, 2], [26, 24, 24, 24], 1),
    (SLOW_MEMORY, [1, 1, 5, 64, 3], [200, 199, 199, 199], 1),
    (QUOTIENTS, [1, 2, 3, 1, 64], [18, 12, 11, 11], 0),
    (JUMP, [1, 1, 23, 3, 3], [28, 21, 19, 18], 0),
];

/// Evaluates the floors of a run.
#[derive(Clone, Copy)]
struct Evaluation<'a> {
    run: &'a Run,
    config: Config,
    floors: [u64; 4],
}

impl<'a> Attempt for Evaluation<'a> {
    fn attempt(&self, heap: Heap) -> Result<Try, AllocError> {
        if self.run.steps().len() > 2000 {
            return Ok(Try::Wrong);
        }
        match floors(heap, self.run, &self.config) {
            Ok(floors) => Ok(Try::right_if(floors == self.floors)),
            Err(_) => Ok(Try::Refused),
        }
    }
}

/// The blocks that the floors of a program need, if they are these.
fn blocks_of(
    alloc: Global,
    program: &Program,
    latencies: [u8; 5],
    floors: [u64; 4],
) -> Result<Option<u64>, Fail> {
    let run = run_of(alloc, program)?;
    let config = one_unit_each([1; 6], latencies, 1)?;
    let run = &run;
    Ok(refusals(
        alloc,
        &Evaluation {
            run,
            config,
            floors,
        },
    )?)
}

#[test]
fn floors_are_those_of_another_implementation(rt: HostRuntime) -> Result<(), Fail> {
    for (program, latencies, floors, least) in &FLOORS {
        assert!(rt; blocks_of(rt.alloc(), program, *latencies, *floors)? >= Some(*least));
    }
    Ok(())
}
