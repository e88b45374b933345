//! Broken files: whatever their bytes, they are refused by name, or the image runs to an end, a
//! fault or the limit.

use std::alloc::Global;
use std::test::Fail;
use tomex_image::{Image, ImageError, Window, load};
use tomex_rvexec::{Fault, FaultKind, RunError, run};
use tomex_tests_fixtures::programs::ELF;

/// A window around the file's segment, small enough for thousands of loads.
fn window() -> Result<Window, Fail> {
    Ok(Window::new(65536, 4096).ok_or("no window")?)
}

/// True if a run faults at its first instruction, which is illegal.
fn is_illegal(alloc: Global, image: &Image) -> bool {
    let illegal = Fault {
        kind: FaultKind::Illegal,
        pc: 65536,
    };
    matches!(run(alloc, image, 1000), Err(RunError::Fault(fault)) if fault == illegal)
}

#[test]
fn every_beginning(rt: HostRuntime) -> Result<(), Fail> {
    for length in 0..ELF.len() {
        match load(rt.alloc(), &ELF.as_slice()[..length], window()?) {
            // Up to three bytes aren't an ELF file yet, but a flat image without a legal
            // instruction.
            Ok(image) => { assert!(rt; 0 < length && length < 4 && is_illegal(rt.alloc(), &image)) }
            Err(ImageError::Empty) => assert!(rt; length == 0),
            Err(error) => assert!(rt; 0 < length && error == ImageError::Truncated),
        }
    }
    Ok(())
}

/// The number of changed files that each test refuses, counted by a program in another language
/// from the definition of the tests.
const REFUSED: [(ImageError, u32); 8] = [
    (ImageError::NotRiscv, 1275),
    (ImageError::NotExec, 510),
    (ImageError::HeaderSize, 510),
    (ImageError::Truncated, 2415),
    (ImageError::Dynamic, 1),
    (ImageError::Segment, 2506),
    (ImageError::Empty, 1084),
    (ImageError::Entry, 942),
];

/// Counts a refusal down.
fn tell_off(left: &mut [(ImageError, u32)], error: ImageError) {
    for (kind, count) in left {
        if *kind == error {
            *count = count.saturating_sub(1);
        }
    }
}

/// True if a changed file is loaded, and has memory for its run. Counts a refusal down.
fn is_loaded(rt: &HostRuntime, bytes: &[u8], left: &mut [(ImageError, u32)]) -> Result<bool, Fail> {
    match load(rt.alloc(), bytes, window()?) {
        Ok(image) => match run(rt.alloc(), &image, 1000) {
            Err(RunError::Memory) => Err("out of memory".into()),
            _ => Ok(true),
        },
        Err(error) => {
            tell_off(left, error);
            Ok(false)
        }
    }
}

#[test]
fn every_byte_changed(rt: HostRuntime) -> Result<(), Fail> {
    let mut left = REFUSED;
    let mut loaded = 0u32;
    for place in 0..ELF.len() {
        for value in 0..=255u8 {
            let mut bytes = *ELF;
            bytes[place] = value;
            if is_loaded(&rt, bytes.as_slice(), &mut left)? {
                loaded = loaded.saturating_add(1);
            }
        }
    }
    // The number that are loaded; with the refused ones, each of the 25,600 is counted once.
    assert!(rt; loaded == 16_357);
    for (kind, count) in &left {
        assert!(rt; *count == 0, "{kind:?}");
    }
    Ok(())
}
