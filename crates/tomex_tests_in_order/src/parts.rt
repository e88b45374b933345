//! Parts that stand for a run, without memory; and what a long run reports.

use crate::cut::{EVER, Reports, TURNS_BYTES};
use std::alloc::AllocError;
use std::test::Fail;
use tomex_cut::NoFollower;
use tomex_image::{ImageError, Window, load};
use tomex_samples::{PartsError, parts};
use tomex_tests_fixtures::{Attempt, Heap, Try, image_of, refusals};

/// Finds the parts of a program of ten turns: the first one, and the nine after it, which are alike.
struct Parts;

impl Attempt for Parts {
    fn attempt(&self, heap: Heap) -> Result<Try, AllocError> {
        let Some(window) = Window::new(0, 320) else {
            return Ok(Try::Wrong);
        };
        let image = match load(heap.clone()?, &TURNS_BYTES, window) {
            Ok(image) => image,
            Err(ImageError::Memory) => return Ok(Try::Refused),
            Err(_) => return Ok(Try::Wrong),
        };
        match parts(heap, &image, 3, &NoFollower) {
            Ok(found) => Ok(Try::right_if(found.len() == 2)),
            Err(PartsError::Memory) => Ok(Try::Refused),
            Err(_) => Ok(Try::Wrong),
        }
    }
}

#[test]
fn parts_without_memory(rt: HostRuntime) -> Result<(), Fail> {
    // The image, the run's memory, the last uses of words, and lists of stretches, groups and parts.
    assert!(rt; refusals(rt.alloc(), &Parts)? > Some(6));
    Ok(())
}

/// 16,384 stretches of 128 steps are too few for it.
#[test]
fn long_runs_report_their_steps(rt: HostRuntime) -> Result<(), Fail> {
    let image = image_of(rt.alloc(), 0, 320, &EVER)?;
    let reports = Reports::new();
    let found = parts(rt.alloc(), &image, 128, &reports);
    assert!(rt; found.err() == Some(PartsError::TooLong));
    assert!(rt; reports.heard() == [2, 1_048_576, 2_097_152]);
    Ok(())
}
