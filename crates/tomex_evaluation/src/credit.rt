//! When it pays to look for states.
//!
//! A policy: it decides how long an evaluation takes, and never what it gives. On long latencies a queue grows, and no
//! state is met again; then states are looked for ever more seldom.

/// The credit of an evaluation: blocks from the table earn some, and blocks that are evaluated cost some.
#[derive(Clone, Copy)]
pub(crate) struct Credit {
    left: u64,
    /// The number of blocks during which no states are looked for.
    pause: u64,
    /// The length of the next pause.
    next_pause: u64,
}

/// The credit at the start, and after a pause.
const GIVEN: u64 = 64;

/// The most credit.
const MOST: u64 = 1000;

/// What a block costs that is evaluated while states are looked for.
const PRICE: u64 = 2;

/// The length of the first pause, in blocks.
const FIRST_PAUSE: u64 = 64;

impl Credit {
    pub(crate) fn new() -> Credit {
        Credit {
            left: GIVEN,
            pause: 0,
            next_pause: FIRST_PAUSE,
        }
    }

    /// Earns one for each of these blocks, which were in the table.
    pub(crate) fn earn(&mut self, blocks: usize) {
        self.left = self.left.saturating_add(blocks as u64).min(MOST);
    }

    /// True if states are looked for after the next block that is evaluated. Without credit there is a pause, each four
    /// times as long as the one before.
    pub(crate) fn pays(&mut self) -> bool {
        if 0 < self.pause {
            self.pause -= 1;
            return false;
        }
        self.left = self.left.saturating_sub(PRICE);
        if self.left == 0 {
            self.pause = self.next_pause;
            self.next_pause = self.next_pause.saturating_mul(4);
            self.left = GIVEN;
        }
        true
    }

    /// Loses all credit.
    pub(crate) fn lose(&mut self) {
        self.left = 0;
    }
}
