//! What can be seen of a command besides its output: how many configurations it begins, how far it says that it is,
//! and whether it says where refusals are explained. So a row or a program that a study doesn't have is found before
//! any row is evaluated.
use crate::files::files;
use crate::{Outcome, outcome_of, words_of};
use std::sync::Wait;
use std::sync::atomic::{AtomicU64, Ordering};
use std::test::Fail;
use std::thread::Threads;
use tomex_streams::{Counted, Meter, Progress};

/// Keeps what it showed last, and how often it showed something, was cleared and was asked for a hint. What is counted
/// is kept by its place among all that may be.
#[derive(Drop)]
pub struct LastShown {
    pub done: AtomicU64,
    pub of: AtomicU64,
    pub counted: AtomicU64,
    pub shows: AtomicU64,
    pub clears: AtomicU64,
    pub hints: AtomicU64,
}

impl Meter for LastShown {
    fn show(&self, progress: Progress) {
        self.done.store(progress.done, Ordering::SeqCst);
        self.of.store(progress.of, Ordering::SeqCst);
        self.counted
            .store(progress.counted as u64, Ordering::SeqCst);
        self.shows.fetch_add(1, Ordering::SeqCst);
    }

    fn clear(&self) {
        self.clears.fetch_add(1, Ordering::SeqCst);
    }

    fn hint(&self) {
        self.hints.fetch_add(1, Ordering::SeqCst);
    }
}

impl LastShown {
    /// A meter that has shown nothing yet.
    pub fn new() -> LastShown {
        LastShown {
            done: AtomicU64::new(9),
            of: AtomicU64::new(9),
            counted: AtomicU64::new(9),
            shows: AtomicU64::new(0),
            clears: AtomicU64::new(0),
            hints: AtomicU64::new(0),
        }
    }

    /// True if it showed this last, was cleared once, and gave no hint.
    pub fn is_over(&self, last: Progress) -> bool {
        self.done.load(Ordering::SeqCst) == last.done
            && self.of.load(Ordering::SeqCst) == last.of
            && self.counted.load(Ordering::SeqCst) == last.counted as u64
            && self.clears.load(Ordering::SeqCst) == 1
            && self.hints.load(Ordering::SeqCst) == 0
    }
}

/// The outcome of a line over the study of two rows, and what its meter kept.
fn watched<R: AllocGlobal + Threads + Wait + Sync>(
    rt: &R,
    line: &str,
) -> Result<(Outcome, LastShown), Fail> {
    let meter = LastShown::new();
    let words = words_of(rt.alloc(), line)?;
    let outcome = outcome_of(rt, rt.alloc(), &files(), words.as_slice(), &meter, 100_000)?;
    Ok((outcome, meter))
}

/// Lines that evaluate both rows, and how many they say are finished last: with one worker the first when the second
/// begins, with two workers none.
static DONE: [(&str, u64); 10] = [
    ("tomex all priced", 1),
    ("tomex explore priced", 1),
    ("tomex explore priced --workers 2", 0),
    ("tomex rows priced", 1),
    ("tomex worth priced 1", 1),
    ("tomex worth priced row=1", 1),
    ("tomex compare priced mul mul", 1),
    ("tomex choices priced", 1),
    ("tomex choices priced --workers 2", 0),
    ("tomex page priced --choices", 1),
];

#[test]
fn a_meter_hears_how_far_it_is(rt: HostRuntime) -> Result<(), Fail> {
    for (line, done) in &DONE {
        let (outcome, meter) = watched(&rt, line)?;
        assert!(rt; outcome.status == 0 && outcome.err.is_empty(), "{line}");
        let last = Progress {
            done: *done,
            of: 2,
            counted: Counted::Configurations,
        };
        assert!(rt; meter.is_over(last), "{line}");
        assert!(rt; meter.shows.load(Ordering::SeqCst) == 2, "{line}");
    }
    Ok(())
}

/// Lines that fail before any row begins, each with its status, the beginning of its error, and the number of hints
/// after it: one after a command that failed, none after a line that asks for none.
static REFUSED: [(&str, u8, &str, u64); 9] = [
    ("tomex worth priced 2", 1, "tomex: no such row\n", 1),
    (
        "tomex worth priced row=0,row=1",
        1,
        "tomex: no such row\n",
        1,
    ),
    (
        "tomex worth priced alu=16",
        1,
        "tomex: no such choice: alu=16\n",
        1,
    ),
    (
        "tomex worth priced width=1",
        1,
        "tomex: several rows: 2\n",
        1,
    ),
    (
        "tomex compare priced mul nope",
        1,
        "tomex: no such program\n",
        1,
    ),
    (
        "tomex compare priced nope mul",
        1,
        "tomex: no such program\n",
        1,
    ),
    (
        "tomex find priced alu=3",
        1,
        "tomex: no such choice: alu=3\n",
        1,
    ),
    ("tomex run none.bin", 3, "tomex: cannot read none.bin\n", 1),
    ("tomex rows", 2, "error: ", 0),
];

#[test]
fn refusals_come_first_and_have_hints(rt: HostRuntime) -> Result<(), Fail> {
    for (line, status, said, hints) in &REFUSED {
        let (outcome, meter) = watched(&rt, line)?;
        assert!(rt; outcome.status == *status, "{line}");
        assert!(rt; outcome.err.starts_with(said.as_bytes()), "{line}");
        assert!(rt; meter.shows.load(Ordering::SeqCst) == 0, "{line}");
        assert!(rt; meter.hints.load(Ordering::SeqCst) == *hints, "{line}");
    }
    Ok(())
}
