//! The commands on a whole study share its configurations among threads.

use crate::files::files;
use crate::{outcome_of, words_of};
use std::sync::Wait;
use std::sync::atomic::{AtomicU64, Ordering};
use std::test::Fail;
use std::thread;
use std::thread::Threads;
use tomex_streams::{Meter, Progress};

/// The most turns that a thread is held.
const TURNS: u32 = 10_000_000;

/// Holds the thread of the first call until another thread calls.
#[derive(Drop)]
struct FirstWaits {
    calls: AtomicU64,
    met: AtomicU64,
}

impl FirstWaits {
    /// Waits until there was a second call; true if there was.
    fn is_second_seen(&self) -> bool {
        for _ in 0..TURNS {
            if self.calls.load(Ordering::SeqCst) > 1 {
                return true;
            }
            thread::yield_now();
        }
        false
    }
}

impl Meter for FirstWaits {
    fn show(&self, _progress: Progress) {
        let is_first = self.calls.fetch_add(1, Ordering::SeqCst) == 0;
        if is_first && self.is_second_seen() {
            self.met.fetch_add(1, Ordering::SeqCst);
        }
    }

    fn clear(&self) {}

    fn hint(&self) {}
}

/// True if a second thread took one configuration of the study of two while the first was held at
/// the other.
fn is_shared<R: AllocGlobal + Threads + Wait + Sync>(rt: &R, line: &str) -> Result<bool, Fail> {
    let meter = FirstWaits {
        calls: AtomicU64::new(0),
        met: AtomicU64::new(0),
    };
    let words = words_of(rt.alloc(), line)?;
    let outcome = outcome_of(rt, rt.alloc(), &files(), words.as_slice(), &meter, 100_000)?;
    Ok(outcome.status == 0 && meter.met.load(Ordering::SeqCst) == 1)
}

/// The commands that explore a study, or find the cycles of all its rows, by two workers.
static LINES: [&str; 12] = [
    "tomex explore priced --workers 2",
    "tomex front priced --workers 2",
    "tomex plot priced --workers 2",
    "tomex rows priced --workers 2",
    "tomex worth priced 0 --workers 2",
    "tomex choices priced --workers 2",
    "tomex prices priced --workers 2",
    "tomex weights priced --workers 2",
    "tomex compare priced mul mul --workers 2",
    "tomex plot priced --rows --workers 2",
    "tomex page priced --workers 2",
    "tomex page priced --choices --workers 2",
];

#[test]
fn two_workers_work_at_a_time(rt: HostRuntime) -> Result<(), Fail> {
    for line in &LINES {
        assert!(rt; is_shared(&rt, line)?, "{line}");
    }
    Ok(())
}
