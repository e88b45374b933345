//! Parts of runs as images: with and without symbols, and without memory; the greatest one; and what a long run
//! reports.

mod memory;
mod symbols;

use std::alloc::Global;
use std::sync::atomic::{AtomicU64, Ordering};
use std::test::Fail;
use tomex_cut::{CutError, Follower, NoFollower, cut};
use tomex_image::{Image, Window, load};
use tomex_rvexec::run;
use tomex_tests_fixtures::image_of;

/// `lui x5,24; addi x5,x5,1696; addi x5,x5,-1; addi x6,x0,1; bne x5,x0,-8; ebreak`: 300,003 steps
const LONG: [u32; 6] = [
    0x000182b7, 0x6a028293, 0xfff28293, 0x00100313, 0xfe029ce3, 0x00100073,
];

/// `jal x0,0`
pub(crate) const EVER: [u32; 1] = [0x0000006f];

/// The bytes of `addi x5,x0,10; mul x6,x6,x5; addi x5,x5,-1; bne x5,x0,-8; ebreak`: 32 steps
pub(crate) const TURNS_BYTES: [u8; 20] = [
    0x93, 0x02, 0xa0, 0x00, 0x33, 0x03, 0x53, 0x02, 0x93, 0x82, 0xf2, 0xff, 0xe3, 0x9c, 0x02, 0xfe,
    0x73, 0x00, 0x10, 0x00,
];

/// The most bytes of a program's memory, and the most steps of its run.
const MOST_BYTES: u32 = 1_048_576;

const MOST_STEPS: u32 = 262_144;

/// The image of the part of that long run from step 37,924 on. Its end is before the EBREAK, which is step 300,003.
fn greatest(alloc: Global) -> Result<Image, Fail> {
    let image = image_of(alloc, 0, MOST_BYTES, &LONG)?;
    let file = cut(alloc, &image, 37_924, 5, &NoFollower)?;
    let window = Window::new(0, MOST_BYTES).ok_or("no window")?;
    Ok(load(alloc, file.as_slice(), window)?)
}

#[test]
fn the_greatest_part(rt: HostRuntime) -> Result<(), Fail> {
    let image = greatest(rt.alloc())?;
    assert!(rt; run(rt.alloc(), &image, MOST_STEPS)?.steps == MOST_STEPS);
    Ok(())
}

/// Counts the reports, and keeps the steps of the last one, and of how many they are.
#[derive(Drop)]
pub(crate) struct Reports {
    times: AtomicU64,
    steps: AtomicU64,
    of: AtomicU64,
}

impl Reports {
    /// None yet.
    pub(crate) fn new() -> Reports {
        Reports {
            times: AtomicU64::new(0),
            steps: AtomicU64::new(0),
            of: AtomicU64::new(0),
        }
    }

    /// How many there were, and what the last one said.
    pub(crate) fn heard(&self) -> [u64; 3] {
        [
            self.times.load(Ordering::SeqCst),
            self.steps.load(Ordering::SeqCst),
            self.of.load(Ordering::SeqCst),
        ]
    }
}

impl Follower for Reports {
    fn passed(&self, steps: u64, of: u64) {
        self.times.fetch_add(1, Ordering::SeqCst);
        self.steps.store(steps, Ordering::SeqCst);
        self.of.store(of, Ordering::SeqCst);
    }
}

#[test]
fn long_runs_report_their_steps(rt: HostRuntime) -> Result<(), Fail> {
    let image = image_of(rt.alloc(), 0, 320, &EVER)?;
    let reports = Reports::new();
    let found = cut(rt.alloc(), &image, 20_000_001, 1, &reports);
    assert!(rt; found.err() == Some(CutError::NoEnd));
    assert!(rt; reports.heard() == [20, 19_922_944, 20_000_000]);
    Ok(())
}
