//! The in-order machine on small programs: what loads leave in registers, and accesses at the edges of memory.

use std::alloc::Global;
use std::test::Fail;
use tomex_image::Image;
use tomex_rvexec::{End, Fault, FaultKind, RunError, run};
use tomex_tests_fixtures::image_of;
use tomex_tests_fixtures::programs::PRODUCT_WORDS;

/// The end of a run of at most `limit` steps.
fn ran(alloc: Global, image: &Image, limit: u32) -> Result<End, Fail> {
    Ok(run(alloc, image, limit)?)
}

/// True if a program makes more than `limit` steps.
fn is_too_long(alloc: Global, image: &Image, limit: u32) -> bool {
    matches!(run(alloc, image, limit), Err(RunError::TooLong))
}

/// A jump over the word 80c0ff80 at 4, and each load of it and of parts of it: `lb x1,4(x0);
/// lb x2,6(x0); lbu x3,4(x0); lh x4,5(x0); lhu x5,5(x0); lh x6,6(x0); lw x7,4(x0); ebreak`
const LOADS: [u32; 10] = [
    0x0080006f, 0x80c0ff80, 0x00400083, 0x00600103, 0x00404183, 0x00501203, 0x00505283, 0x00601303,
    0x00402383, 0x00100073,
];

/// The values that those loads leave in x1 to x7.
const LOADED: [u32; 7] = [
    0xffff_ff80,
    0xffff_ffc0,
    0x0000_0080,
    0xffff_c0ff,
    0x0000_c0ff,
    0xffff_80c0,
    0x80c0_ff80,
];

/// Programs, each with its number of steps and the values that it leaves from x1 on.
static ENDING: [(&[u32], u32, &[u32]); 2] = [
    (&PRODUCT_WORDS, 4, &[5, 7, 35]),
    (&LOADS, 9, &LOADED),
];

/// True if a program ends after `steps` steps, not within fewer, and leaves these values.
fn ends(alloc: Global, words: &[u32], steps: u32, wanted: &[u32]) -> Result<bool, Fail> {
    let image = image_of(alloc, 0, 4096, words)?;
    let end = ran(alloc, &image, steps)?;
    let is_alike = end.steps == steps && end.regs[1..].starts_with(wanted);
    Ok(is_alike && is_too_long(alloc, &image, steps.saturating_sub(1)))
}

#[test]
fn runs_within_the_limit(rt: HostRuntime) -> Result<(), Fail> {
    for (words, steps, wanted) in &ENDING {
        assert!(rt; ends(rt.alloc(), words, *steps, wanted)?);
    }
    Ok(())
}

/// Words, and true if their access is inside the window of 4096 bytes at the top.
static AT_THE_TOP: [(u32, bool); 8] = [
    // lw x1,-2(x0) and lw x0,-2(x0) have bytes past the top, which don't wrap to 0.
    (0xffe02083, false),
    (0xffe02003, false),
    // lw x1,-4(x0), lh x1,-2(x0) and lb x1,-1(x0) end at the top.
    (0xffc02083, true),
    (0xffe01083, true),
    (0xfff00083, true),
    // lh x1,-1(x0) and sh x0,-1(x0) don't; nor does sb x0,0(x0), which is far below the window.
    (0xfff01083, false),
    (0xfe001fa3, false),
    (0x00000023, false),
];

/// True if the word's run ends. A run that doesn't must fault by the word's access.
fn is_inside(alloc: Global, word: u32) -> Result<bool, Fail> {
    let image = image_of(alloc, 0xffff_f000, 4096, &[word, 0x00100073])?;
    let outside = Fault {
        kind: FaultKind::Access,
        pc: 0xffff_f000,
    };
    match run(alloc, &image, 2) {
        Ok(_) => Ok(true),
        Err(RunError::Fault(fault)) if fault == outside => Ok(false),
        Err(_) => Err("another error".into()),
    }
}

#[test]
fn accesses_across_the_edges(rt: HostRuntime) -> Result<(), Fail> {
    for (word, wanted) in &AT_THE_TOP {
        assert!(rt; is_inside(rt.alloc(), *word)? == *wanted, "{word:08x}");
    }
    Ok(())
}
