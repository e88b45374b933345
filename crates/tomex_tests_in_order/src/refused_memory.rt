//! Images, machines, runs and traces that run out of memory.

use std::alloc::AllocError;
use std::test::Fail;
use tomex_image::{Image, ImageError, Window, load};
use tomex_rvexec::{Cpu, EndKind, RunError, Stepped, run, trace};
use tomex_tests_fixtures::programs::ELF;
use tomex_tests_fixtures::{Attempt, Heap, Try, refusals};

/// The image of these bytes in a window of 4096 from a base, or the outcome of its loading.
fn image_of(heap: Heap, bytes: &[u8], base: u32) -> Result<Image<Heap>, Try> {
    match Window::new(base, 4096) {
        Some(window) => match load(heap, bytes, window) {
            Ok(image) => Ok(image),
            Err(ImageError::Memory) => Err(Try::Refused),
            Err(_) => Err(Try::Wrong),
        },
        None => Err(Try::Wrong),
    }
}

/// The product's image.
fn image_in(heap: Heap) -> Result<Image<Heap>, Try> {
    image_of(heap, ELF.as_slice(), 65536)
}

/// Loads the image.
struct Load;

impl Attempt for Load {
    fn attempt(&self, heap: Heap) -> Result<Try, AllocError> {
        match image_in(heap) {
            Ok(image) => Ok(Try::right_if(image.entry() == 65536 && image.memory().len() == 4096)),
            Err(outcome) => Ok(outcome),
        }
    }
}

/// `addi x1,x0,-2; sw x1,64(x0); sh x1,66(x0); sb x1,67(x0); ebreak`
const STORES: [u8; 20] = [
    0x93, 0x00, 0xe0, 0xff, 0x23, 0x20, 0x10, 0x04, 0x23, 0x11, 0x10, 0x04, 0xa3, 0x01, 0x10, 0x04,
    0x73, 0x00, 0x10, 0x00,
];

/// True if a machine ends by its fifth step.
fn ends_at_fifth(mut cpu: Cpu<Heap>) -> bool {
    for _ in 0..4 {
        if cpu.step() != Ok(Stepped::Next) {
            return false;
        }
    }
    cpu.step() == Ok(Stepped::Ended(EndKind::Ebreak))
}

/// The outcome of stepping a machine of a program that stores to its end.
fn stepped(heap: Heap, image: &Image<Heap>) -> Try {
    match Cpu::new(heap, image) {
        Ok(cpu) => Try::right_if(ends_at_fifth(cpu)),
        Err(_) => Try::Refused,
    }
}

/// Makes a machine of a program that stores, and steps it to its end.
struct Step;

impl Attempt for Step {
    fn attempt(&self, heap: Heap) -> Result<Try, AllocError> {
        match image_of(heap.clone()?, STORES.as_slice(), 0) {
            Ok(image) => Ok(stepped(heap, &image)),
            Err(outcome) => Ok(outcome),
        }
    }
}

/// The outcome of a run of the product.
fn ran(heap: Heap, image: &Image<Heap>) -> Try {
    match run(heap, image, 4) {
        Ok(end) => Try::right_if(end.regs[3] == 35),
        Err(RunError::Memory) => Try::Refused,
        Err(_) => Try::Wrong,
    }
}

/// Loads the image and runs it.
struct Run;

impl Attempt for Run {
    fn attempt(&self, heap: Heap) -> Result<Try, AllocError> {
        match image_in(heap.clone()?) {
            Ok(image) => Ok(ran(heap, &image)),
            Err(outcome) => Ok(outcome),
        }
    }
}

/// The outcome of the trace of the product's run.
fn traced(heap: Heap, image: &Image<Heap>) -> Try {
    match trace(heap, image, 4) {
        Ok(steps) => Try::right_if(steps.len() == 4),
        Err(RunError::Memory) => Try::Refused,
        Err(_) => Try::Wrong,
    }
}

/// Loads the image and traces its run.
struct Trace;

impl Attempt for Trace {
    fn attempt(&self, heap: Heap) -> Result<Try, AllocError> {
        match image_in(heap.clone()?) {
            Ok(image) => Ok(traced(heap, &image)),
            Err(outcome) => Ok(outcome),
        }
    }
}

#[test]
fn images_and_runs(rt: HostRuntime) -> Result<(), Fail> {
    // The window's bytes.
    assert!(rt; refusals(rt.alloc(), &Load)? == Some(1));
    // And those that the run changes; a store allocates nothing.
    assert!(rt; refusals(rt.alloc(), &Step)? == Some(2));
    assert!(rt; refusals(rt.alloc(), &Run)? == Some(2));
    // And the list of four steps.
    assert!(rt; refusals(rt.alloc(), &Trace)? == Some(3));
    Ok(())
}
