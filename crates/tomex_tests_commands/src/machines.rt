//! Memory shows that each worker has a lane, and that `all` runs each row in one machine.

use crate::{granted, words_of};
use std::alloc::{AllocError, Global};
use std::sync::Wait;
use std::test::Fail;
use std::thread::Threads;
use tomex_tests_fixtures::front_report_of;
use tomex_tests_fixtures::programs::{LOOP, PRODUCT};
use tomex_tests_fixtures::studies::{DROPPED, DROPPED_REPORT};

/// The number of blocks that a line needs to make the report of the study.
fn granted_to<R: AllocGlobal + Threads + Wait + Sync>(
    rt: &R,
    line: &str,
) -> Result<Option<u64>, AllocError> {
    let files = [("study", DROPPED.as_bytes()), ("loop.bin", LOOP.as_slice())];
    let words = words_of(rt.alloc(), line)?;
    granted(
        rt,
        words.as_slice(),
        files.as_slice(),
        DROPPED_REPORT.as_bytes(),
    )
}

#[test]
fn each_worker_takes_memory(rt: HostRuntime) -> Result<(), Fail> {
    // A lane for each worker.
    let one = granted_to(&rt, "tomex explore study")?;
    let eight = granted_to(&rt, "tomex explore study --workers 8")?;
    assert!(rt; one < eight, "{one:?} {eight:?}");
    Ok(())
}

/// The product twice on one row, the second time in a window of this many bytes.
fn in_window(alloc: Global, size: u32) -> Result<String, AllocError> {
    format!(in alloc;
        "[[program]]\nname = \"a\"\nfile = \"mul.bin\"\nsize = 4096\n\
        [[program]]\nname = \"b\"\nfile = \"mul.bin\"\nsize = {size}\n"
    )
}

/// Its report, which is the same for all windows.
const TWICE: &str = front_report_of!(
    "0,0,16,1,1,1,1,1,1,1,1,1,1,1,1,1,1,1,1,1,a,4,8,ebreak,x1=00000005 x2=00000007 x3=00000023,-\n\
     0,0,16,1,1,1,1,1,1,1,1,1,1,1,1,1,1,1,1,1,b,4,8,ebreak,x1=00000005 x2=00000007 x3=00000023,-\n"
);

/// The number of blocks that a line needs for that report, with the second window of this size.
fn granted_in<R: AllocGlobal + Threads + Wait + Sync>(
    rt: &R,
    line: &str,
    size: u32,
) -> Result<u64, Fail> {
    let study = in_window(rt.alloc(), size)?;
    let files = [("study", study.as_bytes()), ("mul.bin", PRODUCT.as_slice())];
    let words = words_of(rt.alloc(), line)?;
    Ok(granted(rt, words.as_slice(), files.as_slice(), TWICE.as_bytes())?.ok_or("another report")?)
}

/// `all` runs both programs in one machine, whose memory takes another block if the second window is larger. `explore`
/// evaluates both, and takes no memory for a window.
#[test]
fn only_all_runs_each_row_in_a_machine(rt: HostRuntime) -> Result<(), Fail> {
    let (small, large) = (4096, 1_048_576);
    let blocks = granted_in(&rt, "tomex all study", small)?;
    assert!(rt; granted_in(&rt, "tomex all study", large)? == blocks.wrapping_add(1));
    let blocks = granted_in(&rt, "tomex explore study", small)?;
    assert!(rt; granted_in(&rt, "tomex explore study", large)? == blocks);
    Ok(())
}
