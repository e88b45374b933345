//! A part with the symbols of its image's own file, without memory.

use std::alloc::AllocError;
use std::test::Fail;
use tomex_cut::{CutError, NoFollower, cut_with_symbols};
use tomex_image::{ImageError, Window, load};
use tomex_symbols::has_symbols;
use tomex_tests_fixtures::programs::CALLS;
use tomex_tests_fixtures::{Attempt, Heap, Try, refusals};

/// Cuts a part of the calls, with symbols.
struct CutWithSymbols;

impl Attempt for CutWithSymbols {
    fn attempt(&self, heap: Heap) -> Result<Try, AllocError> {
        let bytes = CALLS.as_slice();
        let Some(window) = Window::new(0x1000, 1024) else {
            return Ok(Try::Wrong);
        };
        if !has_symbols(bytes) {
            return Ok(Try::Wrong);
        }
        let image = match load(heap.clone()?, bytes, window) {
            Ok(image) => image,
            Err(ImageError::Memory) => return Ok(Try::Refused),
            Err(_) => return Ok(Try::Wrong),
        };
        match cut_with_symbols(heap, &image, bytes, 2, 3, &NoFollower) {
            Ok(file) => Ok(Try::right_if(file.len() == 1373)),
            Err(CutError::Memory) => Ok(Try::Refused),
            Err(_) => Ok(Try::Wrong),
        }
    }
}

#[test]
fn parts_with_symbols_without_memory(rt: HostRuntime) -> Result<(), Fail> {
    // The image, the run's memory, the memory before the part, its words, the symbols, and the file.
    assert!(rt; refusals(rt.alloc(), &CutWithSymbols)? == Some(6));
    Ok(())
}
