//! A worker on the calling thread. It is given no runtime, so it can wait for no lock, on whatever it shares.

ghost use Rattle.tomex_workers.specs.Plans.{IsPlanOf};

use crate::answers::{LOOP_ALONE, study_in};
use std::alloc::{AllocError, Global};
use std::marker::Brand;
use std::test::Fail;
use tomex_board::{Board, Mark, Plan};
use tomex_lanes::deal;
use tomex_sweep::{OpenGate, Study, work};
use tomex_tests_fixtures::studies::DROPPED;
use tomex_tests_fixtures::{Heap, ample};

/// The marks that a study's rows have after one worker's work, on a board of this plan.
fn marks_on<J: Plan>(other: Global, study: &Study<Heap>) -> Result<Vec<Mark, Heap>, AllocError>
    requires { IsPlanOf study.now J.costs J.cycles }
{
    study.keeps_limits();
    let costs = study.costs();
    let mut lanes = deal(ample(other)?, 1, costs.len())?;
    let (board, seat) = Board::<J, Heap>::new(ample(other)?, costs)?;
    match lanes.pop() {
        Some(lane) if lane.count() == costs.len() => {
            let part = work(ample(other)?, study, &board, seat, lane, &OpenGate)?;
            Ok(board.close(part.into_seat()))
        }
        _ => Err(AllocError),
    }
}

/// The same on a board that is made for the study.
fn marks_of(other: Global, study: &Study<Heap>) -> Result<Vec<Mark, Heap>, AllocError> {
    marks_on::<Brand>(other, study)
}

#[test]
fn a_worker_needs_no_runtime(rt: HostRuntime) -> Result<(), Fail> {
    let study = study_in(ample(rt.alloc())?, rt.alloc(), DROPPED, &LOOP_ALONE)?;
    let marks = marks_of(rt.alloc(), &study)?;
    assert!(rt; marks.as_slice() == [Mark::Finished(2000), Mark::Dropped(0)].as_slice());
    Ok(())
}
