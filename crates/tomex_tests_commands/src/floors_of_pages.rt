//! A page computes the floors of a program once for rows with the same latencies. Memory shows it: rows with different
//! latencies take more.

use crate::{granted, outcome_of, words_of};
use std::sync::Wait;
use std::test::Fail;
use std::thread::Threads;
use tomex_streams::NoMeter;

/// `addi x1,x0,128; sw x0,1024(x1); addi x1,x1,-4; bne x1,x0,-8; mul x2,x2,x2; ebreak`: it stores 32 words, which a
/// floor keeps in a map that grows several times.
const STORES: &[u8; 24] =
    b"\x93\x00\x00\x08\x23\xa0\x00\x40\x93\x80\xc0\xff\xe3\x9c\x00\xfe\x33\x01\x21\x02\x73\x00\x10\x00";

/// Four machines that differ in stations that the program doesn't use: all are on the front.
const SAME: &str =
    "program = [{ name = \"stores\", file = \"stores.bin\" }]\naxes.div = [1, 2, 3, 4]\n";

/// Four machines with multipliers of different latencies. All are on the front, since a faster one costs more.
const DIFFERENT: &str = "program = [{ name = \"stores\", file = \"stores.bin\" }]\n\
    unit.mul = [{ latency = 1, price = 4 }, { latency = 2, price = 3 }, { latency = 3, price = 2 }, \
    { latency = 4, price = 1 }]\n";

/// The number of blocks that a line on this study needs.
fn blocks_of<R: AllocGlobal + Threads + Wait + Sync>(
    rt: &R,
    line: &str,
    study: &str,
) -> Result<u64, Fail> {
    let files = [
        ("study", study.as_bytes()),
        ("stores.bin", STORES.as_slice()),
    ];
    let words = words_of(rt.alloc(), line)?;
    let whole = outcome_of(rt, rt.alloc(), &files, words.as_slice(), &NoMeter, 200_000)?;
    Ok(granted(rt, words.as_slice(), &files, whole.out.as_slice())?.ok_or("another answer")?)
}

/// The number of blocks that a page needs beyond those for the study's rows, which it evaluates too.
fn blocks_of_page<R: AllocGlobal + Threads + Wait + Sync>(
    rt: &R,
    study: &str,
) -> Result<u64, Fail> {
    let page = blocks_of(rt, "tomex page study", study)?;
    Ok(page.saturating_sub(blocks_of(rt, "tomex rows study", study)?))
}

#[test]
fn floors_are_computed_once_for_the_same_latencies(rt: HostRuntime) -> Result<(), Fail> {
    let same = blocks_of_page(&rt, SAME)?;
    let different = blocks_of_page(&rt, DIFFERENT)?;
    // Floors are computed once, for the overview and the rows that are shown: for one set of latencies or for four. So
    // there are three more, each with a map that grows at least nine times.
    assert!(rt; same.saturating_add(27) <= different, "{same} {different}");
    Ok(())
}
