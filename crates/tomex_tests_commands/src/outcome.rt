//! The outcome of a whole run: its status, and what it printed.
use std::alloc::{AllocError, Allocator, Global};
use std::sync::Wait;
use std::thread::Threads;
use tomex_command::{Heaps, command};
use tomex_streams::Meter;
use tomex_tests_fixtures::in_memory::{Narrow, Shelf};

/// The outcome of a run of the program.
#[derive(Drop)]
pub struct Outcome {
    pub status: u8,
    pub out: Vec<u8>,
    pub err: Vec<u8>,
}

/// Runs the program on these words over these files, with a standard output that takes a limited
/// number of bytes.
pub fn outcome_of<
    R: AllocGlobal + Threads + Wait + Sync,
    A: Allocator + Clone + Send + Sync + Drop,
    M: Meter + Sync,
>(
    rt: &R,
    heap: A,
    files: &[(&str, &[u8])],
    words: &[&str],
    meter: &M,
    room: usize,
) -> Result<Outcome, AllocError> {
    let out = Narrow::new(rt.alloc(), room, 1000);
    outcome_on(rt, heap, files, words, meter, out)
}

/// The same with this standard output.
pub fn outcome_on<
    R: AllocGlobal + Threads + Wait + Sync,
    A: Allocator + Clone + Send + Sync + Drop,
    M: Meter + Sync,
>(
    rt: &R,
    heap: A,
    files: &[(&str, &[u8])],
    words: &[&str],
    meter: &M,
    mut out: Narrow,
) -> Result<Outcome, AllocError> {
    let mut line = Vec::new(rt.alloc());
    for word in words {
        line.push(String::from_str(rt.alloc(), word)?)?;
    }
    let mut err = Narrow::new(rt.alloc(), 10_000, 1000);
    let status = command(
        rt,
        Heaps {
            images: heap,
            texts: rt.alloc(),
        },
        line.as_slice(),
        &Shelf { files },
        meter,
        &mut out,
        &mut err,
    );
    Ok(Outcome {
        status,
        out: out.bytes,
        err: err.bytes,
    })
}

/// The words of a line, split at each space.
pub fn words_of<'a>(alloc: Global, line: &'a str) -> Result<Vec<&'a str>, AllocError> {
    let mut words = Vec::new(alloc);
    for word in line.split(' ') {
        words.push(word)?;
    }
    Ok(words)
}
