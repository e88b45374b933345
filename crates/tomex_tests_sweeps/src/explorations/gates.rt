//! Gates that hold workers.

use std::sync::atomic::{AtomicU64, Ordering};
use std::thread;
use tomex_sweep::Gate;

/// The most turns that a worker is held.
const TURNS: u32 = 10_000_000;

/// Waits until there were `wanted` calls; true if there were.
fn wait_for(calls: &AtomicU64, wanted: u64) -> bool {
    for _ in 0..TURNS {
        if calls.load(Ordering::SeqCst) >= wanted {
            return true;
        }
        thread::yield_now();
    }
    false
}

/// Holds the first caller until there is a second call.
#[derive(Drop)]
pub struct FirstWaits {
    calls: AtomicU64,
    opened: AtomicU64,
}

impl FirstWaits {
    pub fn new() -> FirstWaits {
        FirstWaits {
            calls: AtomicU64::new(0),
            opened: AtomicU64::new(0),
        }
    }

    /// True if the second call came while the first was held.
    pub fn has_opened(&self) -> bool {
        self.opened.load(Ordering::SeqCst) == 1
    }
}

impl Gate for FirstWaits {
    fn before(&self, _worker: usize, _row: usize) {
        let is_first = self.calls.fetch_add(1, Ordering::SeqCst) == 0;
        if is_first && wait_for(&self.calls, 2) {
            self.opened.fetch_add(1, Ordering::SeqCst);
        }
    }
}

/// Holds the call for row 0 until there were a number of calls for other rows, from a row on.
#[derive(Drop)]
pub struct RowWaits {
    from: usize,
    wanted: u64,
    calls: AtomicU64,
    opened: AtomicU64,
}

impl RowWaits {
    pub fn new(from: usize, wanted: u64) -> RowWaits {
        RowWaits {
            from,
            wanted,
            calls: AtomicU64::new(0),
            opened: AtomicU64::new(0),
        }
    }

    /// True if these calls came while row 0 was held, and row 0 was called for once.
    pub fn has_opened(&self) -> bool {
        self.opened.load(Ordering::SeqCst) == 1
    }
}

impl Gate for RowWaits {
    fn before(&self, _worker: usize, row: usize) {
        if row == 0 {
            if wait_for(&self.calls, self.wanted) {
                self.opened.fetch_add(1, Ordering::SeqCst);
            }
        } else if row >= self.from {
            self.calls.fetch_add(1, Ordering::SeqCst);
        }
    }
}
