//! Whole runs with each allocation refused in turn. The command line takes other memory.
use crate::outcome::{outcome_of, words_of};
use std::alloc::AllocError;
use std::sync::Wait;
use std::test::Fail;
use std::thread::Threads;
use tomex_streams::NoMeter;
use tomex_tests_fixtures::{Heap, Try, refusals_of};

/// Runs the program on a command line over files in memory. It must print this.
fn command_in<R: AllocGlobal + Threads + Wait + Sync>(
    rt: &R,
    heap: Heap,
    words: &[&str],
    files: &[(&str, &[u8])],
    output: &[u8],
) -> Result<Try, AllocError> {
    let outcome = outcome_of(rt, heap, files, words, &NoMeter, 200_000)?;
    let said = outcome.err.as_slice() == b"tomex: out of memory\n".as_slice();
    match outcome.status {
        0 => Ok(Try::right_if(outcome.out.as_slice() == output)),
        3 if said && outcome.out.is_empty() => Ok(Try::Refused),
        _ => Ok(Try::Wrong),
    }
}

/// The number of blocks that the program needs before it answers, if no try is wrong.
pub fn granted<R: AllocGlobal + Threads + Wait + Sync>(
    rt: &R,
    words: &[&str],
    files: &[(&str, &[u8])],
    output: &[u8],
) -> Result<Option<u64>, AllocError> {
    Ok(refusals_of!(rt.alloc(), heap => command_in(rt, heap, words, files, output)?))
}

/// Fails unless each of these lines needs at least its number of blocks, and prints with them what it prints with
/// ample memory. What that is, golden cases compare.
pub fn each_is_granted<R: AllocGlobal + Threads + Wait + Sync>(
    rt: &R,
    files: &[(&str, &[u8])],
    asked: &[(&str, u64)],
) -> Result<(), Fail> {
    for (line, least) in asked {
        let words = words_of(rt.alloc(), line)?;
        let whole = outcome_of(rt, rt.alloc(), files, words.as_slice(), &NoMeter, 200_000)?;
        if whole.status != 0 || whole.out.is_empty() {
            return Err("a command is refused with ample memory".into());
        }
        if granted(rt, words.as_slice(), files, whole.out.as_slice())? < Some(*least) {
            return Err("a command answers wrongly, or with too few blocks".into());
        }
    }
    Ok(())
}
