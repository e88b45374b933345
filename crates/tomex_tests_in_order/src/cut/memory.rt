//! Parts that run out of memory.

use super::TURNS_BYTES;
use std::alloc::AllocError;
use std::test::Fail;
use tomex_cut::{CutError, NoFollower, cut};
use tomex_image::{ImageError, Window, load};
use tomex_tests_fixtures::{Attempt, Heap, Try, refusals};

/// Cuts a part of the program.
struct Cut;

impl Attempt for Cut {
    fn attempt(&self, heap: Heap) -> Result<Try, AllocError> {
        let Some(window) = Window::new(0, 320) else {
            return Ok(Try::Wrong);
        };
        let image = match load(heap.clone()?, &TURNS_BYTES, window) {
            Ok(image) => image,
            Err(ImageError::Memory) => return Ok(Try::Refused),
            Err(_) => return Ok(Try::Wrong),
        };
        match cut(heap, &image, 5, 3, &NoFollower) {
            Ok(file) => Ok(Try::right_if(file.len() == 404)),
            Err(CutError::Memory) => Ok(Try::Refused),
            Err(_) => Ok(Try::Wrong),
        }
    }
}

#[test]
fn parts_without_memory(rt: HostRuntime) -> Result<(), Fail> {
    // The image, the run's memory, the memory before the part, its words, and the file.
    assert!(rt; refusals(rt.alloc(), &Cut)? == Some(5));
    Ok(())
}
