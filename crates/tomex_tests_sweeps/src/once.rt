//! Memory is allocated once: the number of blocks that a study takes doesn't depend on its rows.

use crate::answers::{blocks_of_all, blocks_of_some};
use std::alloc::AllocError;
use std::sync::Wait;
use std::test::Fail;
use std::thread::Threads;
use tomex_tests_fixtures::programs::{LOOP, PRODUCT};

/// The product and the loop.
static BOTH: [&[u8]; 2] = [PRODUCT, LOOP];

/// Both programs, in windows of these sizes, on rows of these stations and buses. An alu station costs 1.
macro_rules! document_of {
    ($first:literal, $second:literal, $stations:literal, $buses:literal) => {
        concat!(
            "[[program]]\nname = \"mul\"\nfile = \"mul.bin\"\nsize = ",
            $first,
            "\n[[program]]\nname = \"loop\"\nfile = \"loop.bin\"\nsize = ",
            $second,
            "\n[prices]\nalu = 1\n[axes]\nalu = ",
            $stations,
            "\nbuses = ",
            $buses,
            "\n"
        )
    };
}

/// The number of blocks that the call takes that runs each row, and that an exploration with one worker takes.
fn blocks_of<R: AllocGlobal + Threads + Wait + Sync>(
    rt: &R,
    document: &str,
) -> Result<[Option<u64>; 2], AllocError> {
    let all = blocks_of_all(rt.alloc(), document, &BOTH)?;
    Ok([all, blocks_of_some(rt, document, &BOTH, 1)?])
}

/// Nine rows and twelve, in windows of three sizes, and the blocks of the call that runs each row: marks, the machine,
/// finished rows (three blocks) and the front; one more if the second window is larger.
static ROWS: [(&str, u64); 6] = [
    (
        document_of!(4096, 4096, "[1, 2, 3, 4, 5, 6, 7, 8, 9]", "[1]"),
        6,
    ),
    (
        document_of!(8192, 4096, "[1, 2, 3, 4, 5, 6, 7, 8, 9]", "[1]"),
        6,
    ),
    (
        document_of!(4096, 8192, "[1, 2, 3, 4, 5, 6, 7, 8, 9]", "[1]"),
        7,
    ),
    (
        document_of!(4096, 4096, "[1, 2, 3, 4, 5, 6, 7, 8, 9, 10, 11, 12]", "[1]"),
        6,
    ),
    (
        document_of!(8192, 4096, "[1, 2, 3, 4, 5, 6, 7, 8, 9, 10, 11, 12]", "[1]"),
        6,
    ),
    (
        document_of!(4096, 8192, "[1, 2, 3, 4, 5, 6, 7, 8, 9, 10, 11, 12]", "[1]"),
        7,
    ),
];

/// Lists over rows grow by doubling, and take as many blocks for 9 rows as for 12. A worker makes no machine, so an
/// exploration takes the same number of blocks for any windows.
#[test]
fn as_many_blocks_for_more_rows(rt: HostRuntime) -> Result<(), Fail> {
    let [_, alike] = blocks_of(&rt, ROWS[0].0)?;
    assert!(rt; alike.is_some());
    for (document, all) in &ROWS {
        assert!(rt; blocks_of(&rt, document)? == [Some(*all), alike]);
    }
    Ok(())
}

/// Rows enough for workers to learn from them.
const LEARNING: &str = document_of!(
    4096,
    4096,
    "[1, 2, 3, 4, 5, 6, 7, 8, 9, 10, 11, 12, 13, 14, 15, 16]",
    "[1, 2, 3]"
);

/// Each growth is refused in turn.
#[test]
fn each_growth_of_learning_is_refused(rt: HostRuntime) -> Result<(), Fail> {
    for workers in [1, 2] {
        assert!(rt; blocks_of_some(&rt, LEARNING, &BOTH, workers)? > Some(12));
    }
    Ok(())
}
